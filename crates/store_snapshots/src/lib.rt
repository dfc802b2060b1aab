//! Readers of published versions, the snapshots that they take, the publisher, and what hands the
//! publisher its refreshes.
#![tactic(auto)]

mod entry;
mod feed;
mod hall;
mod latest;
mod list_feed;
mod note;
mod publisher;
mod reader;
mod rule;
mod ruled;
mod ruled_hall;
mod shelf;
mod snapshot;
mod sure;

pub use entry::{Entered, Entry};
pub use feed::{Feed, FeedError, FeedTurn};
pub use hall::{Another, Hall, seat};
pub use list_feed::ListFeed;
pub use note::Note;
pub use publisher::{Given, Published, Publisher, open};
pub use reader::Reader;
pub use ruled::RuledEntry;
pub use ruled_hall::RuledHall;
pub use snapshot::Snapshot;
pub use sure::SureEntry;
