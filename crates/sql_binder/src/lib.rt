//! Names of a query bound to columns: a bound query, or the first refusal.
#![tactic(auto)]

mod blocks;
mod clauses;
mod exprs;
mod joins;
mod knot;
pub mod laws;
mod nodes;
mod operands;
mod statements;
mod subqueries;
mod syntax;

pub use statements::{bind, bind_view};
