//! What a command gives.
use app_inputs::Status;

/// What a command gives.
#[derive(Drop)]
pub enum Output {
    /// A text to be printed, with its status.
    Text(Vec<u8>, Status),
    /// Nothing: a call of the disk failed.
    DiskFault,
}
