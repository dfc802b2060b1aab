//! A journal of accepted refreshes: each is on the disk before it is acknowledged, whatever a crash
//! leaves of what is written meanwhile.
#![tactic(auto)]

mod appends;
mod bytes;
mod fault;
mod frame;
mod journal;
mod laws;
mod payload;
mod reading;
mod step;

pub use appends::append_all;
pub use fault::JournalFault;
pub use frame::{next_frame, push_framed};
pub use journal::{Appended, Journal, make, reopen};
pub use laws::{after_crash, one_reading, one_write_is_bad};
pub use payload::Payload;
