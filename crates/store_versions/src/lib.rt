//! Versions of a base under a list of refreshes that are tried in order.
#![tactic(auto)]

mod attachment;
mod compacted;
mod directory;
mod joining;
mod kept;
mod lists;
mod older;
mod scan;
mod version_error;

pub use attachment::Attachment;
pub use compacted::Compacted;
pub use directory::Directory;
pub use version_error::VersionError;
