//! What `show_plan [--json] SCRIPT [DIR]` prints: what becomes of each query of a script, as lines
//! and as JSON. It has its bound form, its trees and its flat plan; with a folder of tables also
//! what each node takes: rows, bytes and time, and how a join finds its pairs.
#![tactic(auto)]

mod figure_text;
mod figures;
mod lines;
mod objects;
mod place;
mod query_plan;
mod run;
mod script;
mod statement_plan;
mod ways;
mod words;
mod written;

pub use run::show_plan;
