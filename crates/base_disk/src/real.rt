//! The machine's disk. It tells nothing, so nothing is promised of what a file holds.
ghost use Rattle.std.specs.Prelude.{◌≡◌, None, is_some};
ghost use Rattle.base_disk.specs.Disk.{not_told};

use crate::{Disk, Got, Reach, Size, Synced, Wrote};
use std::fs::{File, OpenOptions};
use std::io::{Read, Seek, SeekFrom, Write};
use std::{io, rt};

/// The files of the machine, of which one may be reached, and how many calls failed.
///
/// The file reached stays open and locked, so that no second program reaches it.
#[derive(Drop)]
pub struct RealDisk<'r, R: rt::Files<File = File>> {
    rt: &'r R,
    file: Option<File>,
    faults: u64,
}

impl<'r, R: rt::Files<File = File>> RealDisk<'r, R> {
    /// The disk that the runtime reaches, with no file reached.
    pub fn new(rt: &'r R) -> RealDisk<'r, R>
        ensures faults { result.faults ≡ 0 }
        ensures closed { result.file ≡ None }
    {
        RealDisk {
            rt,
            file: None,
            faults: 0,
        }
    }
}

/// The folder that has the file of that name.
fn folder_of(name: &str) -> &str {
    match name.rsplit_once('/') {
        Some(("", _)) => "/",
        Some((folder, _)) => folder,
        None => ".",
    }
}

/// Opens the file of that name, which is made where there is none, and locks it. Its name lasts:
/// the folder is synced too.
fn open_locked<R: rt::Files<File = File>>(rt: &R, name: &str) -> io::Result<File> {
    let mut how = OpenOptions::new();
    how.read(true).write(true).create(true);
    let file = how.open(rt, name)?;
    file.try_lock()?;
    File::open(rt, folder_of(name))?.sync_all()?;
    Ok(file)
}

/// Writes the whole piece at the place.
fn write_all_at(file: &mut File, at: u64, piece: &[u8]) -> io::Result<()> {
    file.seek(SeekFrom::Start(at))?;
    file.write_all(piece)
}

impl<R: rt::Files<File = File>> Disk for RealDisk<'_, R> {
    ghost named = { λ _. None };

    ghost reads = { λ _. None };

    ghost is_reached = { λ m. is_some m.file };

    ghost may_leave = { λ _ _. ⊥ };

    ghost moment = { λ _. 0 };

    ghost left_since = { λ _ _ _. ⊥ };

    ghost faults = { λ m. m.faults };

    ghost reads_image = { λ _ f told. not_told f told };

    ghost counts_now = { λ _ _ _ _ none. none };

    ghost only_now = { λ _ _ none. none };

    fn reach(&mut self, name: &str) -> Reach {
        // First it lets go of the file that was reached, and of its lock.
        self.file = None;
        match open_locked(self.rt, name) {
            Ok(file) => {
                self.file = Some(file);
                Reach::Reached
            }
            Err(_) => {
                self.faults = self.faults.saturating_add(1);
                Reach::Failed
            }
        }
    }

    fn size(&mut self) -> Size {
        if let Some(file) = &self.file {
            if let Ok(known) = file.metadata() {
                return Size::Size(known.len());
            }
        }
        self.faults = self.faults.saturating_add(1);
        Size::Failed
    }

    fn read(&mut self, at: u64, into: &mut [u8]) -> Got {
        if let Some(file) = &mut self.file {
            if file.seek(SeekFrom::Start(at)).is_ok() {
                if let Ok(count) = file.read(into) {
                    return Got::Got(count);
                }
            }
        }
        self.faults = self.faults.saturating_add(1);
        Got::Failed
    }

    fn write_at(&mut self, at: u64, piece: &[u8]) -> Wrote {
        if let Some(file) = &mut self.file {
            if write_all_at(file, at, piece).is_ok() {
                return Wrote::Wrote;
            }
        }
        self.faults = self.faults.saturating_add(1);
        Wrote::Failed
    }

    /// The bytes, and the size where it changed, are on the disk: `fdatasync` is enough for these.
    fn sync(&mut self) -> Synced {
        if let Some(file) = &self.file {
            if file.sync_data().is_ok() {
                return Synced::Synced;
            }
        }
        self.faults = self.faults.saturating_add(1);
        Synced::Failed
    }
}
