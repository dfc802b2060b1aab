//! Groups of rows by their keys: of each how many rows there are, and of the values of each
//! aggregate's argument their sums and their least fault. Rows are put in and taken out.
#![tactic(auto)]

mod body;
mod cell;
mod cells;
mod entry;
mod group;
mod groups;
mod head;
mod key;
pub mod laws;
mod page;
mod row_values;
mod shelf;
mod small_cell;
mod value;

pub use cell::Cell;
pub use entry::Taken;
pub use group::{Group, GroupRef};
pub use groups::Groups;
pub use page::Page;
