//! Why a file gives no rows.
ghost use Rattle.std.specs.Prelude.{◌≡◌};

use base_refusals::{LineFault, LineRefusal};
use std::alloc::{AllocError, AllocFailed};

/// Why a file gives no rows: its first bad line, or that memory ran out.
#[derive(Clone, Copy, Debug, PartialEq, Eq)]
pub enum TableError {
    /// The first bad line, and what is wrong with it.
    Refused(LineRefusal),
    /// Memory ran out.
    OutOfMemory,
}

impl From<AllocError> for TableError {
    ghost use Rattle.store_file_reader.specs.declared.error.TableError.TheVariants.{OutOfMemory};

    ghost from_gives = { λ _ e. e ≡ OutOfMemory };

    fn from(_: AllocError) -> Self {
        TableError::OutOfMemory
    }
}

impl<T: Drop> From<AllocFailed<T>> for TableError {
    ghost use Rattle.store_file_reader.specs.declared.error.TableError.TheVariants.{OutOfMemory};

    ghost from_gives = { λ _ e. e ≡ OutOfMemory };

    fn from(_: AllocFailed<T>) -> Self {
        TableError::OutOfMemory
    }
}

/// Why the fields of a line give no row: one of them is bad, or memory ran out.
#[derive(Clone, Copy, Debug, PartialEq, Eq)]
pub enum FieldsError {
    /// What is wrong.
    Bad(LineFault),
    /// Memory ran out.
    OutOfMemory,
}
