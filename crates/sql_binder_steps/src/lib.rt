//! The steps of binding: names resolved to columns, the kinds of values, what is made of operands
//! that are bound, and the rows of FROM. None of them reads an expression or a query of the text.
#![tactic(auto)]

pub mod chain;
pub mod collected;
mod fault;
pub mod from;
pub mod kinds;
pub mod lists;
pub mod names;
pub mod scope;
pub mod sets;
pub mod steps;
pub mod values;
mod view;

pub use fault::BindFault;
pub use view::{Header, StatementViews, View, Views, copy_views};
