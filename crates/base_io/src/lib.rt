//! What the program meets outside of itself: files that it reads, a sink that takes its text, and a
//! gate that its sessions pass. Each is a trait with meanings that contracts cite, so that the
//! program's promise can name the very bytes read and written; beside the real ones stand files and
//! a sink in memory.
#![tactic(auto)]

mod files;
mod folder;
mod gate;
mod memory;
mod real;
mod sink;
mod sure;

pub use files::{Files, Got, Open};
pub use folder::{MemFile, MemFolder, Place};
pub use gate::{Gate, OpenGate};
pub use memory::{MemFiles, MemSink};
pub use real::{RealFiles, RealSink};
pub use sink::{Put, Sink};
pub use sure::{SureFiles, SureSink};
