//! Bound queries as plain data, and what they mean: their rows by nested loops, their answer, their
//! reads.
#![tactic(auto)]

mod copy;
mod kinds;
pub mod laws;
mod query;

pub use copy::copy_block;
pub use kinds::kind_of_column;
pub use query::{BoundAggregate, BoundBlock, BoundExpr, BoundQuery, BoundSource, Input, SetColumn};
