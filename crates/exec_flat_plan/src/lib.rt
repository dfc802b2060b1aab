//! Flat plans run over tables, node by node, by several threads.
#![tactic(auto)]

mod kept;
mod kept_view;
mod lent;
mod node;
mod node_bags;
mod node_rows;
mod plan;
mod scan;

pub use plan::run;
