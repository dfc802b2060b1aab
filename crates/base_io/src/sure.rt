//! Files and a sink in memory that never fail.
ghost use Rattle.std.specs.Prelude.{◌≡◌, ◌≢◌, ◌<◌, ◌≤◌, ◌⊎◌, Some, None, is_some, length, not};
ghost use Rattle.std.specs.Prelude.{true};
ghost use Rattle.base_io.specs.Memory.{folder_of, open_answer, read_answer, has_file, left_of};
ghost use Rattle.base_io.specs.Memory.{count_after};
ghost use Rattle.base_io.specs.Outside.{Counts, Gives, IsPutFault, Opens, Takes};

use crate::{Files, Got, MemFile, MemFolder, Open, Put, Sink};

/// Files in memory whose calls never fail.
#[derive(Drop)]
pub struct SureFiles {
    /// The files, and the place in the open one.
    pub folder: MemFolder,
    /// How many names were absent.
    pub misses: u64,
}

impl SureFiles {
    /// These files with none open.
    pub fn new(files: Vec<MemFile>) -> SureFiles
        ensures { result ≡ record { folder = record { files = files; place = None }; misses = 0 } }
    {
        SureFiles {
            folder: MemFolder::new(files),
            misses: 0,
        }
    }
}

impl Files for SureFiles {
    ghost held = { λ m. Some (folder_of m.folder.files.items) };

    ghost left = { λ m. left_of m.folder.files.items m.folder.place };

    ghost is_open = { λ m. is_some m.folder.place };

    ghost faults = { λ _. 0 };

    ghost misses = { λ m. m.misses };

    fn open(&mut self, name: &str) -> Open
        ensures held { Some (folder_of self.new.folder.files.items)
            ≡ Some (folder_of self.old.folder.files.items) }
        ensures opens { Opens (Some (folder_of self.old.folder.files.items)) name.now result
            (left_of self.new.folder.files.items self.new.folder.place) }
        ensures is_open { result ≡ Open.Opened → is_some self.new.folder.place ≡ true }
        ensures faults { Counts (result ≡ Open.Failed) 0 0 }
        ensures misses { Counts (result ≡ Open.Absent) self.old.misses self.new.misses }

        ensures answer { result ≡ open_answer self.old.folder name.now }
        ensures miss_count { self.new.misses ≡ count_after (not (has_file self.old.folder name.now))
            self.old.misses }
        ensures rest { self.new.folder.files ≡ self.old.folder.files }
        ensures place { result ≢ Open.Opened → self.new.folder.place ≡ self.old.folder.place }
    {
        if self.folder.open_named(name) {
            return Open::Opened;
        }
        self.misses = self.misses.saturating_add(1);
        Open::Absent
    }

    fn next(&mut self, into: &mut [u8]) -> Got
        requires room { 0 < length into.old }
        requires is_open { is_some self.old.folder.place ≡ true }
        ensures held { Some (folder_of self.new.folder.files.items)
            ≡ Some (folder_of self.old.folder.files.items) }
        ensures bytes { Gives (left_of self.old.folder.files.items self.old.folder.place)
            (left_of self.new.folder.files.items self.new.folder.place) result into.new }
        ensures is_open { is_some self.new.folder.place ≡ true }
        ensures faults { Counts (result ≡ Got.Failed) 0 0 }
        ensures misses { self.old.misses ≤ self.new.misses }

        ensures answer { result ≡ read_answer self.old.folder (length into.old) }
        ensures rest { (self.new.folder.files ≡ self.old.folder.files)
            × (self.new.misses ≡ self.old.misses) }
    {
        Got::Got(self.folder.read_on(into))
    }
}

/// A sink in memory that takes each piece whole, where memory is found.
#[derive(Drop)]
pub struct SureSink {
    /// The bytes taken.
    pub bytes: Vec<u8>,
}

impl SureSink {
    /// A sink that holds these bytes.
    pub fn new(bytes: Vec<u8>) -> SureSink
        ensures { result.bytes ≡ bytes }
    {
        SureSink { bytes }
    }
}

impl Sink for SureSink {
    ghost taken = { λ m. Some m.bytes.items };

    ghost faults = { λ _. 0 };

    fn put(&mut self, piece: &[u8]) -> Put
        ensures bytes { Takes (Some self.old.bytes.items) (Some self.new.bytes.items) result
            piece.now }
        ensures faults { Counts (IsPutFault result piece.now) 0 0 }

        ensures answer { (result ≡ Put.Took (length piece.now)) ⊎ (result ≡ Put.OutOfMemory) }
    {
        match self.bytes.extend_from_slice(piece) {
            Ok(()) => Put::Took(piece.len()),
            Err(_) => Put::OutOfMemory,
        }
    }
}
