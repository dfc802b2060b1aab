//! Makes the data of the benchmark in miniature: the files of the eight tables and of one refresh
//! set, the same bytes for the same number.
#![tactic(auto)]

mod choices;
mod customer;
mod dates;
mod draw;
mod fields;
mod lineitem;
mod orders;
mod part;
mod partsupp;
mod places;
mod supplier;
mod text;
mod texts;

pub use text::NamedText;
pub use texts::make;
