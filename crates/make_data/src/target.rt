//! Where a run writes.
ghost use Rattle.std.specs.Prelude.{◌≡◌, ℕ, List, [], ◌∷◌, Option, IsErrOf, OnErr, OnOk};
ghost use Rattle.base_io.specs.Outside.{Counts};
ghost use Rattle.make_data.specs.Target.{Grows, Written};

use std::alloc::AllocError;

/// Why nothing was written.
#[derive(Clone, Copy, Debug, PartialEq, Eq)]
pub enum TargetError {
    /// Writing failed.
    Fault,
    /// Memory was refused.
    OutOfMemory,
}

impl From<AllocError> for TargetError {
    ghost use Rattle.make_data.specs.declared.target.TargetError.TheVariants.{OutOfMemory};

    ghost from_gives = { λ _ e. e ≡ OutOfMemory };

    fn from(_: AllocError) -> Self {
        TargetError::OutOfMemory
    }
}

/// Takes files by their paths, and lines for the one who called the program.
///
/// A fault comes only where the count of faults rose, or stands at its last value, 2^64 - 1. The
/// count never falls.
pub trait Target {
    /// The files that were written whole so far, in their order, where they are told.
    ghost files: { Self → Option Written };

    /// What was printed so far, where it is told.
    ghost printed: { Self → Option (List ℕ) };

    /// How many calls failed.
    ghost faults: { Self → ℕ };

    /// Writes the file at the path, in place of one that is there. After an error the file may be
    /// there in part.
    fn write_file(&mut self, path: &str, bytes: &[u8]) -> Result<(), TargetError>
        ensures whole { OnOk result
            (Grows (files self.old) (files self.new) ((path.now, bytes.now) ∷ [])) }
        ensures none { OnErr result (Grows (files self.old) (files self.new) []) }
        ensures printed { Grows (printed self.old) (printed self.new) [] }
        ensures faults { Counts (IsErrOf result TargetError.Fault) (faults self.old)
            (faults self.new) };

    /// Prints the line. After an error a part of it may be printed.
    fn print(&mut self, line: &str) -> Result<(), TargetError>
        ensures whole { OnOk result (Grows (printed self.old) (printed self.new) line.now) }
        ensures files { Grows (files self.old) (files self.new) [] }
        ensures faults { Counts (IsErrOf result TargetError.Fault) (faults self.old)
            (faults self.new) };
}
