//! The machine's files and standard output. They tell no bytes, so nothing is promised of what a
//! file holds or a screen shows.
ghost use Rattle.std.specs.Prelude.{◌≡◌, None};
ghost use Rattle.base_io.specs.Outside.{Counts};

use crate::target::{Target, TargetError};
use std::io::{ErrorKind, Write};
use std::{fs, io, rt};

/// The machine's files and standard output, with a count of their faults that is 0 at first.
#[derive(Drop)]
pub struct Machine<'r, R: rt::Files + Print> {
    rt: &'r R,
    faults: u64,
}

impl<'r, R: rt::Files + Print> Machine<'r, R> {
    /// What the runtime reaches.
    pub fn new(rt: &'r R) -> Machine<'r, R>
        ensures { result.faults ≡ 0 }
    {
        Machine { rt, faults: 0 }
    }

    /// Counts the error, unless memory was wanted.
    fn count_fault(&mut self, error: io::Error) -> TargetError
        ensures { Counts (result ≡ TargetError.Fault) self.old.faults self.new.faults }
    {
        if error.kind() == ErrorKind::OutOfMemory {
            return TargetError::OutOfMemory;
        }
        self.faults = self.faults.saturating_add(1);
        TargetError::Fault
    }
}

impl<R: rt::Files + Print> Target for Machine<'_, R> {
    ghost files = { λ _. None };

    ghost printed = { λ _. None };

    ghost faults = { λ m. m.faults };

    fn write_file(&mut self, path: &str, bytes: &[u8]) -> Result<(), TargetError> {
        match fs::write(self.rt, path, bytes) {
            Ok(()) => Ok(()),
            Err(error) => Err(self.count_fault(error)),
        }
    }

    fn print(&mut self, line: &str) -> Result<(), TargetError> {
        match io::writer(self.rt).write_all(line.as_bytes()) {
            Ok(()) => Ok(()),
            Err(error) => Err(self.count_fault(error)),
        }
    }
}
