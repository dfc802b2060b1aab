//! Joins and marks on computed values: the value that an equality computes becomes a column of its
//! side, so that rows are found by it.
#![tactic(auto)]

mod condition;
mod moved;
mod side_key;
mod tree;
mod wider;

pub use tree::keyed;
