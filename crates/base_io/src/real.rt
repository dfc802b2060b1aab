//! The real files and standard output. They tell no bytes, so nothing is promised of what a file
//! holds or a screen shows.
ghost use Rattle.std.specs.Prelude.{◌≡◌, ◌≢◌, None, is_some};
ghost use Rattle.base_io.specs.Outside.{Counts, IsPutFault, Takes};

use crate::{Files, Got, Open, Put, Sink};
use std::io::{ErrorKind, Read, Write};
use std::{fs, io, rt};

/// Files of the machine, of which one may be open, and the two counts, both 0 at first.
#[derive(Drop)]
pub struct RealFiles<'r, R: rt::Files> {
    rt: &'r R,
    file: Option<R::File>,
    faults: u64,
    misses: u64,
}

impl<'r, R: rt::Files> RealFiles<'r, R> {
    /// The files that the runtime reaches, with none open.
    pub fn new(rt: &'r R) -> RealFiles<'r, R>
        ensures faults { result.faults ≡ 0 }
        ensures misses { result.misses ≡ 0 }
        ensures closed { result.file ≡ None }
    {
        RealFiles {
            rt,
            file: None,
            faults: 0,
            misses: 0,
        }
    }
}

impl<R: rt::Files> Files for RealFiles<'_, R> {
    ghost held = { λ _. None };

    ghost left = { λ _. None };

    ghost is_open = { λ m. is_some m.file };

    ghost faults = { λ m. m.faults };

    ghost misses = { λ m. m.misses };

    /// Only "not found" is an absence; each other error is a fault.
    fn open(&mut self, name: &str) -> Open {
        match fs::open(self.rt, name) {
            Ok(file) => {
                self.file = Some(file);
                Open::Opened
            }
            Err(error) => {
                if error.kind() == ErrorKind::NotFound {
                    self.misses = self.misses.saturating_add(1);
                    return Open::Absent;
                }
                self.faults = self.faults.saturating_add(1);
                Open::Failed
            }
        }
    }

    fn next(&mut self, into: &mut [u8]) -> Got {
        let Some(file) = &mut self.file else {
            self.faults = self.faults.saturating_add(1);
            return Got::Failed;
        };
        match file.read(into) {
            Ok(count) => Got::Got(count),
            Err(_) => {
                self.faults = self.faults.saturating_add(1);
                Got::Failed
            }
        }
    }
}

/// Standard output, with a count of its faults that is 0 at first.
#[derive(Drop)]
pub struct RealSink<'r, R: Print> {
    rt: &'r R,
    faults: u64,
}

impl<'r, R: Print> RealSink<'r, R> {
    /// The runtime's standard output.
    pub fn new(rt: &'r R) -> RealSink<'r, R>
        ensures { result.faults ≡ 0 }
    {
        RealSink { rt, faults: 0 }
    }
}

impl<R: Print> Sink for RealSink<'_, R> {
    ghost taken = { λ _. None };

    ghost faults = { λ m. m.faults };

    fn put(&mut self, piece: &[u8]) -> Put
        ensures bytes { Takes None None result piece.now }
        ensures faults { Counts (IsPutFault result piece.now) self.old.faults self.new.faults }

        // It keeps no bytes, so memory never runs out for them.
        ensures no_memory { result ≢ Put.OutOfMemory }
    {
        match io::writer(self.rt).write(piece) {
            Ok(count) => {
                if count == 0 && !piece.is_empty() {
                    self.faults = self.faults.saturating_add(1);
                }
                Put::Took(count)
            }
            Err(_) => {
                self.faults = self.faults.saturating_add(1);
                Put::Failed
            }
        }
    }
}
