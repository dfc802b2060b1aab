//! Operators over whole columns, each with the operator on single values as its meaning.
#![tactic(auto)]

mod arithmetic;
mod comparison;
mod constants;
mod likes;
mod texts;
mod truths;
mod values;

pub use arithmetic::computed_columns;
pub use comparison::compared_columns;
pub use constants::{compared_with, computed_from, computed_with};
pub use truths::{both, either, liked_column, marked_truths, negated_truths, null_tests};
pub use values::{chosen_column, extracted_column, negative_column, part_column, scaled_column};
