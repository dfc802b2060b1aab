//! Conditions as lists of conjuncts, and copies of expressions.
#![tactic(auto)]

mod conjuncts;
mod copy;
mod factors;
pub mod laws;
mod same;

pub use conjuncts::{Parted, in_parts, put_condition, put_run, reads_below, renamed_all};
pub use copy::copy as copy_of;
pub use factors::put_factors;
pub use same::is_same;
