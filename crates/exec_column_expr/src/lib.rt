//! Expressions over the rows of a batch, column by column.
#![tactic(auto)]

mod apply;
mod batches;
mod choose;
mod evaluate;
mod operand;
mod projection;

pub use batches::{selected, truths_of, values_of};
pub use projection::projected;
