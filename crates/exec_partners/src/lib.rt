//! What left rows' partners come to: marks as a column, and whether there is no partner, one or
//! more.
#![tactic(auto)]

mod marks;
mod partners;

pub use marks::mark_column;
pub use partners::{Partners, partners_of};
