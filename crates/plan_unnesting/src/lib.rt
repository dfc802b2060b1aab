//! Dependent trees lowered to flat plans, in which no node depends on the rows of another.
#![tactic(auto)]

mod lowering;
mod worked;

pub use lowering::lower;
pub use plan_unnested_nodes::{Domain, DomainRows, Origin};
pub use worked::worked_rows;
