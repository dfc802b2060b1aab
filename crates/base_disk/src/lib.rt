//! A disk: one file that is read, written and synced, what a crash may leave of it, and a count of
//! faults. Beside the real one stands a disk in memory, which remembers its calls.
#![tactic(auto)]

mod disk;
mod memory;
mod real;

pub use disk::{Disk, Got, Reach, Size, Synced, Wrote};
pub use memory::{Call, MemDisk};
pub use real::RealDisk;
