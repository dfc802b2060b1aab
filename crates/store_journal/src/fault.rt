//! Why a journal could not be made, read or opened.
ghost use Rattle.std.specs.Prelude.{◌≡◌};
ghost use Rattle.store_journal.specs.declared.fault.ReadError.TheVariants.{Memory};
ghost use Rattle.store_journal.specs.declared.fault.JournalFault.TheVariants as fault;
ghost use Rattle.store_journal.specs.Reading.{fault_of};

use std::alloc::{AllocError, AllocFailed};

/// Why bytes were not read as a journal.
#[derive(Debug, Drop)]
pub enum ReadError {
    Memory,
    /// No journal stands at that place.
    Bad(usize),
}

impl From<AllocError> for ReadError {
    ghost from_gives = { λ _ e. e ≡ Memory };

    fn from(_: AllocError) -> Self {
        ReadError::Memory
    }
}

impl<T: Drop> From<AllocFailed<T>> for ReadError {
    ghost from_gives = { λ _ e. e ≡ Memory };

    fn from(_: AllocFailed<T>) -> Self {
        ReadError::Memory
    }
}

/// Why a journal is not opened.
#[derive(Debug, Drop)]
pub enum JournalFault {
    Memory,
    /// A call of the disk failed.
    Failed,
    /// The file ends before its first closed gate, or no entry stands behind an open one.
    BadEntry(u64),
    /// The file is past 2^60 bytes.
    TooLong,
}

impl From<AllocError> for JournalFault {
    ghost from_gives = { λ _ e. e ≡ fault.Memory };

    fn from(_: AllocError) -> Self {
        JournalFault::Memory
    }
}

impl<T: Drop> From<AllocFailed<T>> for JournalFault {
    ghost from_gives = { λ _ e. e ≡ fault.Memory };

    fn from(_: AllocFailed<T>) -> Self {
        JournalFault::Memory
    }
}

impl From<ReadError> for JournalFault {
    ghost from_gives = { λ r e. e ≡ fault_of r };

    fn from(error: ReadError) -> Self {
        match error {
            ReadError::Memory => JournalFault::Memory,
            ReadError::Bad(place) => JournalFault::BadEntry(place as u64),
        }
    }
}
