//! From bound queries to dependent trees: the list of the rows around a query becomes one flat
//! domain row.
#![tactic(auto)]

mod kept_domain;
mod outer;
mod query;
mod sets;
mod so_far;
mod tree;

pub use plan_dependent_nodes::OuterColumn;
pub use query::{depend, depend_under};
