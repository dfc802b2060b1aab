//! Dependent trees arranged for speed, their rows kept.
#![tactic(auto)]

mod collect;
mod group;
mod implied;
mod lateral;
mod narrow;
mod order;
mod regroup;

pub use collect::arrange;
