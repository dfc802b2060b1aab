//! Queries whose rows are kept: the plan of each, and which other queries have none.
#![tactic(auto)]

mod form;
pub mod laws;

pub use form::{KeptPlanError, plan_of, plan_of_block};
