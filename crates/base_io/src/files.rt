//! Files that are opened by name and read piece by piece.
ghost use Rattle.std.specs.Prelude.{◌≡◌, ℕ, ◌<◌, ◌≤◌, List, Option, Bool, true, length};
ghost use Rattle.base_io.specs.Outside.{Counts, Folder, Gives, Opens};

/// What opening a file answers.
#[derive(Clone, Copy, Debug, PartialEq, Eq)]
pub enum Open {
    /// The file is open, at its first byte.
    Opened,
    /// There is no file of that name.
    Absent,
    /// The file could not be opened for another cause.
    Failed,
}

/// What reading the next piece of the open file answers.
#[derive(Clone, Copy, Debug, PartialEq, Eq)]
pub enum Got {
    /// How many bytes stand at the front of the slice; 0 only at the file's end.
    Got(usize),
    /// The piece could not be read.
    Failed,
}

/// Files by their names. At most one of them is open at a time.
///
/// A failure comes only where the count of faults rose, and "absent" only where the count of misses
/// rose; a count has "risen" also where it stands at its last value, 2^64 - 1. No count ever falls.
pub trait Files {
    /// The files with their names and bytes, where they are known.
    ghost held: { Self → Option Folder };

    /// What is left of the open file, where it is known.
    ghost left: { Self → Option (List ℕ) };

    /// A file was opened.
    ghost is_open: { Self → Bool };

    /// How many calls failed.
    ghost faults: { Self → ℕ };

    /// How many names were absent.
    ghost misses: { Self → ℕ };

    /// Opens the file of that name at its first byte, in place of the one that was open.
    fn open(&mut self, name: &str) -> Open
        ensures held { held self.new ≡ held self.old }
        ensures opens { Opens (held self.old) name.now result (left self.new) }
        ensures is_open { result ≡ Open.Opened → is_open self.new ≡ true }
        ensures faults { Counts (result ≡ Open.Failed) (faults self.old) (faults self.new) }
        ensures misses { Counts (result ≡ Open.Absent) (misses self.old) (misses self.new) };

    /// Reads the open file's next bytes into the front of `into`, at least one of them before its
    /// end.
    fn next(&mut self, into: &mut [u8]) -> Got
        requires room { 0 < length into.old }
        requires is_open { is_open self.old ≡ true }
        ensures held { held self.new ≡ held self.old }
        ensures bytes { Gives (left self.old) (left self.new) result into.new }
        ensures is_open { is_open self.new ≡ true }
        ensures faults { Counts (result ≡ Got.Failed) (faults self.old) (faults self.new) }
        ensures misses { misses self.old ≤ misses self.new };
}
