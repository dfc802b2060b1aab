//! Files and a sink in memory, which fail at the calls that a list names.
ghost use Rattle.std.specs.Prelude.{◌≡◌, ◌≢◌, ◌==◌, ◌&&◌, ◌<◌, ◌≤◌, Some, None, is_some, length};
ghost use Rattle.std.specs.Prelude.{min, not, true, if◌then◌else◌};
ghost use Rattle.std.specs.List.{list_any};
ghost use Rattle.base_io.specs.Memory.{TookOnly, is_failing, folder_of, open_answer};
ghost use Rattle.base_io.specs.Memory.{read_answer, has_file, is_failed, is_put_fault};
ghost use Rattle.base_io.specs.Memory.{left_of, count_after};
ghost use Rattle.base_io.specs.Outside.{Counts, Gives, IsPutFault, Opens, Takes, next_count};

use crate::{Files, Got, MemFile, MemFolder, Open, Put, Sink};

/// Whether the list has the call of that number.
fn is_named(failing: &[u64], call: u64) -> bool
    ensures { result ≡ list_any (λ k. k == call) failing.now }
{
    failing.iter().any(|k| *k == call)
}

/// Files in memory. Their calls are counted from 1, and those that the list names fail.
#[derive(Drop)]
pub struct MemFiles {
    /// The files, and the place in the open one.
    pub folder: MemFolder,
    /// The numbers of the calls that are to fail.
    pub failing: Vec<u64>,
    /// How many calls there were.
    pub calls: u64,
    /// How many calls failed.
    pub faults: u64,
    /// How many names were absent.
    pub misses: u64,
}

impl MemFiles {
    /// These files with none open, and the numbers of the calls that are to fail.
    pub fn new(files: Vec<MemFile>, failing: Vec<u64>) -> MemFiles
        ensures { result ≡ record {
          folder = record { files = files; place = None };
          failing =
              failing;
          calls = 0;
          faults = 0;
          misses = 0;
        } }
    {
        MemFiles {
            folder: MemFolder::new(files),
            failing,
            calls: 0,
            faults: 0,
            misses: 0,
        }
    }
}

impl Files for MemFiles {
    ghost held = { λ m. Some (folder_of m.folder.files.items) };

    ghost left = { λ m. left_of m.folder.files.items m.folder.place };

    ghost is_open = { λ m. is_some m.folder.place };

    ghost faults = { λ m. m.faults };

    ghost misses = { λ m. m.misses };

    fn open(&mut self, name: &str) -> Open
        ensures held { Some (folder_of self.new.folder.files.items)
            ≡ Some (folder_of self.old.folder.files.items) }
        ensures opens { Opens (Some (folder_of self.old.folder.files.items)) name.now result
            (left_of self.new.folder.files.items self.new.folder.place) }
        ensures is_open { result ≡ Open.Opened → is_some self.new.folder.place ≡ true }
        ensures faults { Counts (result ≡ Open.Failed) self.old.faults self.new.faults }
        ensures misses { Counts (result ≡ Open.Absent) self.old.misses self.new.misses }

        // It fails exactly where the list has the call's number, and each count rises by exactly
        // what happened.
        ensures answer { result
            ≡ (if is_failing self.old.failing.items self.old.calls then Open.Failed else open_answer
            self.old.folder name.now) }
        ensures calls { self.new.calls ≡ next_count self.old.calls }
        ensures fault_count { self.new.faults ≡ count_after (is_failing self.old.failing.items self.old.calls)
            self.old.faults }
        ensures miss_count { self.new.misses ≡ count_after (not (is_failing self.old.failing.items self.old.calls)
            && not (has_file self.old.folder name.now)) self.old.misses }
        ensures rest { (self.new.failing ≡ self.old.failing)
            × (self.new.folder.files ≡ self.old.folder.files) }
        ensures place { result ≢ Open.Opened → self.new.folder.place ≡ self.old.folder.place }
    {
        self.calls = self.calls.saturating_add(1);
        if is_named(&self.failing, self.calls) {
            self.faults = self.faults.saturating_add(1);
            return Open::Failed;
        }
        if self.folder.open_named(name) {
            return Open::Opened;
        }
        self.misses = self.misses.saturating_add(1);
        Open::Absent
    }

    fn next(&mut self, into: &mut [u8]) -> Got
        requires room { 0 < length into.old }
        requires is_open { is_some self.old.folder.place ≡ true }
        ensures held { Some (folder_of self.new.folder.files.items)
            ≡ Some (folder_of self.old.folder.files.items) }
        ensures bytes { Gives (left_of self.old.folder.files.items self.old.folder.place)
            (left_of self.new.folder.files.items self.new.folder.place) result into.new }
        ensures is_open { is_some self.new.folder.place ≡ true }
        ensures faults { Counts (result ≡ Got.Failed) self.old.faults self.new.faults }
        ensures misses { self.old.misses ≤ self.new.misses }

        ensures answer { result
            ≡ (if is_failing self.old.failing.items self.old.calls then Got.Failed else read_answer
            self.old.folder (length into.old)) }
        ensures calls { self.new.calls ≡ next_count self.old.calls }
        ensures fault_count { self.new.faults ≡ count_after (is_failing self.old.failing.items self.old.calls)
            self.old.faults }
        ensures rest { (self.new.failing ≡ self.old.failing)
            × (self.new.folder.files ≡ self.old.folder.files)
            × (self.new.misses ≡ self.old.misses) }
        ensures place { result ≡ Got.Failed → self.new.folder.place ≡ self.old.folder.place }
    {
        self.calls = self.calls.saturating_add(1);
        if is_named(&self.failing, self.calls) {
            self.faults = self.faults.saturating_add(1);
            return Got::Failed;
        }
        Got::Got(self.folder.read_on(into))
    }
}

/// A sink in memory. Its calls are counted from 1, and those that the list names fail; the others
/// take at most that many bytes.
#[derive(Drop)]
pub struct MemSink {
    /// The bytes taken.
    pub bytes: Vec<u8>,
    /// The most bytes that one call takes.
    pub most: usize,
    /// The numbers of the calls that are to fail.
    pub failing: Vec<u64>,
    /// How many calls there were.
    pub calls: u64,
    /// How many calls failed.
    pub faults: u64,
}

impl MemSink {
    /// A sink that holds these bytes and takes at most `most` at a time, and the numbers of the
    /// calls that are to fail.
    pub fn new(bytes: Vec<u8>, most: usize, failing: Vec<u64>) -> MemSink
        ensures { result ≡ record {
          bytes = bytes;
          most = most;
          failing = failing;
          calls = 0;
          faults = 0;
        } }
    {
        MemSink {
            bytes,
            most,
            failing,
            calls: 0,
            faults: 0,
        }
    }
}

impl Sink for MemSink {
    ghost taken = { λ m. Some m.bytes.items };

    ghost faults = { λ m. m.faults };

    fn put(&mut self, piece: &[u8]) -> Put
        ensures bytes { Takes (Some self.old.bytes.items) (Some self.new.bytes.items) result
            piece.now }
        ensures faults { Counts (IsPutFault result piece.now) self.old.faults self.new.faults }

        // It fails exactly where the list has the call's number; else it takes the most that it
        // may, or memory ran out.
        ensures failed { is_failed result ≡ is_failing self.old.failing.items self.old.calls }
        ensures took { TookOnly result (min (length piece.now) self.old.most) }
        ensures calls { self.new.calls ≡ next_count self.old.calls }
        ensures fault_count { self.new.faults ≡ count_after (is_put_fault result piece.now) self.old.faults }
        ensures rest { (self.new.failing ≡ self.old.failing) × (self.new.most ≡ self.old.most) }
    {
        self.calls = self.calls.saturating_add(1);
        if is_named(&self.failing, self.calls) {
            self.faults = self.faults.saturating_add(1);
            return Put::Failed;
        }
        let count = piece.len().min(self.most);
        if self.bytes.extend_from_slice(&piece[..count]).is_err() {
            return Put::OutOfMemory;
        }
        if count == 0 && !piece.is_empty() {
            self.faults = self.faults.saturating_add(1);
        }
        Put::Took(count)
    }
}
