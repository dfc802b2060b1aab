//! Scalar expressions over one row: their value, their truth with faults, and what can be read off
//! them.
#![tactic(auto)]

mod columns;
mod evaluate;
mod expr;
mod kind;
mod laws;
mod used;

pub use columns::rename;
pub use evaluate::{eval, eval_slice, truth, truth_slice};
pub use expr::{Branch, Expr, Operation};
pub use expr_operators::{Arithmetic, Comparison, DatePart, mark_of};
pub use kind::{Kind, well_typed_conditions, well_typed_gives_its_kind};
pub use laws::{chains_of_comparisons, mark_is_read, more_cases, small_cases, worked_examples};
pub use used::{used_columns, used_columns_decide};
