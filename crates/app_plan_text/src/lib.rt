//! Queries, trees and plans as lines for readers. Columns have names, and conditions and aggregates
//! stand as SQL writes them.
#![tactic(auto)]

mod block;
mod expr;
mod json;
mod line;
mod literal;
mod names;
mod node;
mod numbering;
mod page;
mod plan;
mod query;
mod row_writer;
mod tree;
mod writer;

pub use json::{push_json_lines, push_json_text};
pub use line::{PlanLine, push_lines};
pub use plan::plan_lines;
pub use query::query_lines;
pub use tree::tree_lines;
pub use writer::{Piece, TextWriter};
