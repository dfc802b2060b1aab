//! Durability: an accepted refresh is stored in a journal before readers are shown its version.
#![tactic(auto)]

mod feed;
mod gateway;
mod stored;
mod trial;

pub use feed::{StoredFeed, StoredTurn};
pub use gateway::StoredGateway;
pub use stored::{StoredAnswer, publish_stored};
