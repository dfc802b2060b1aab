//! The 22 queries of TPC-H as templates, and their texts with values put in.
#![tactic(auto)]

mod fault;
mod filling;
mod kind;
mod laws;
mod texts;

pub use fault::TemplateFault;
pub use filling::fill;
pub use kind::ValueKind;
pub use laws::{filled_is_script, filled_is_tokens};
