//! Accumulators: each computes an aggregate of a list of values, value by value or part by part.
#![tactic(auto)]

mod accumulator;
mod count;
mod distinct;
mod extreme;
mod sum;
mod term;
mod terms;

pub use accumulator::Accumulator;
pub use count::{Count, CountRows};
pub use distinct::CountDistinct;
pub use extreme::{Greatest, Least};
pub use sum::{Average, Sum};
