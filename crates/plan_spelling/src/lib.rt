//! The numbers that spell a flat plan, which no other plan has. They are printed as a line.
#![tactic(auto)]

mod exprs;
pub mod laws;
mod nodes;
mod numbers;
mod values;

pub use nodes::plan_spelling;
pub use numbers::{push_numbers, push_plan};
