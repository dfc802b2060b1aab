//! The rows of an answer: their least fault, or their order up to the row limit.
#![tactic(auto)]

mod answer;
mod batch_cells;
mod cell;
mod column_cells;
mod fault;
mod order;
mod ordered_rows;
mod place;
mod row_cells;
mod sketch;

pub use answer::finish;
pub use ordered_rows::OrderedRows;
