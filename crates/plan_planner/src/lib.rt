//! From a query to its flat plan, and the plan as it is printed.
#![tactic(auto)]

pub mod laws;
mod planning;
mod text;
mod views;

pub use planning::{bind_query, plan, plan_bound};
pub use text::plan_text;
pub use views::SessionViews;
