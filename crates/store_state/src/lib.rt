//! The state of the database: the rows of the eight tables, each table's in order.
//!
//! A table's rows lie in shared segments, each with the places of its deleted rows.
#![tactic(auto)]

mod action;
mod applied;
mod cause;
mod found;
mod key_range;
mod keys;
pub mod laws;
mod moves;
mod part;
mod parts;
mod refresh;
mod same_rows;
mod search;
mod state;

pub use action::Action;
pub use applied::{RefreshError, apply, cause_of};
pub use moves::{Moves, moves_of};
pub use part::Part;
pub use refresh::Refresh;
pub use state::{State, place};
