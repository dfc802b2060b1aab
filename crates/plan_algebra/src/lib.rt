//! Dependent trees, flat plans, and what both mean.
#![tactic(auto)]

mod aggregate;
mod copy;
mod kept_plan;
pub mod laws;
mod node;
mod piece;
mod plan;
mod steps;
mod tables;
mod tree;
mod whole;

pub use aggregate::{Aggregate, values_of_none};
pub use copy::{copy_aggregates, copy_expr, copy_exprs};
pub use kept_plan::{
    KeptAggregate, KeptPlan, copy_kept_plan, is_same_plan, plain_aggregates, shown_columns,
};
pub use node::{Node, NodeId};
pub use piece::Piece;
pub use plan::{Builder, FlatPlan};
pub use steps::Steps;
pub use tables::Tables;
pub use tree::{DepTree, Side, width};
pub use whole::{WholeTables, rows_are_of};
