//! Scans by several threads: what selections and select lists make of the pieces of a table, or of
//! the batches of a bag, and their groups, in the order of one thread.
#![tactic(auto)]

mod bags;
mod expression_groups;
mod groups;
mod kept;
mod made;
mod merged;
mod parts;
mod scan;
mod stages;

pub use bags::staged_bag;
pub use expression_groups::scan_groups;
pub use groups::{bag_groups, staged_groups};
pub use scan::{scan_rows, staged_scan};
pub use stages::Stage;
