//! Kept aggregates: the rows of grouped queries, kept while rows are added to and removed from
//! their tables.
#![tactic(auto)]

mod attached;
mod bag;
mod columns;
mod kept;
pub mod laws;
mod moving;
mod output;
mod part_reading;
mod placed;
mod reading;
mod view;

pub use attached::{KeptOf, Plans};
pub use kept::Kept;
