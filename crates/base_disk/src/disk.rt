//! The disk's calls and meanings.
ghost use Rattle.std.specs.Prelude.{◌≡◌, ℕ, ◌<◌, ◌≤◌, Some, List, Option, Bool, true, is_some, length};
ghost use Rattle.base_io.specs.Outside.{Counts};
ghost use Rattle.base_disk.specs.Disk.{Elapses, Follows, Gives, Measures, Torn, written_in};
ghost use Rattle.base_disk.specs.Disk.{file_named};

/// What reaching a file answers.
#[derive(Clone, Copy, Debug, PartialEq, Eq)]
pub enum Reach {
    /// The file is there: it was before, or it is made, empty.
    Reached,
    Failed,
}

/// What asking for the file's size answers.
#[derive(Clone, Copy, Debug, PartialEq, Eq)]
pub enum Size {
    Size(u64),
    Failed,
}

/// What reading a piece answers.
#[derive(Clone, Copy, Debug, PartialEq, Eq)]
pub enum Got {
    /// How many bytes stand at the front of the slice; 0 only at or past the file's end.
    Got(usize),
    Failed,
}

/// What writing a piece answers.
#[derive(Clone, Copy, Debug, PartialEq, Eq)]
pub enum Wrote {
    Wrote,
    Failed,
}

/// What a sync answers.
#[derive(Clone, Copy, Debug, PartialEq, Eq)]
pub enum Synced {
    Synced,
    Failed,
}

/// A disk, of which one file is reached at a time. Between two syncs a crash may leave any bytes in
/// each range that was written, and past the old end; the other bytes stay. After a sync that
/// succeeds a crash leaves what a read gives. A failure comes only where the count of faults rose, or
/// stands at its last value, and says no more of a write than what a crash may leave.
pub trait Disk {
    /// What a read gives of each name, where it is known; no byte where there is no such file.
    ghost named: { Self → Option (List ℕ → List ℕ) };

    /// What a read gives of the file reached, where it is known.
    ghost reads: { Self → Option (List ℕ) };

    /// The last `reach` answered Reached.
    ghost is_reached: { Self → Bool };

    /// What a crash at this moment may leave of the file reached.
    ghost may_leave: { Self → List ℕ → Type 0 };

    /// The moment, as a number that doesn't fall while a file stays reached.
    ghost moment: { Self → ℕ };

    /// What a crash at some moment from that one on may have left, during a call or between two.
    ghost left_since: { Self → ℕ → List ℕ → Type 0 };

    /// How many calls failed.
    ghost faults: { Self → ℕ };

    /// Reaches the file of that name, and makes it where there is none.
    fn reach(&mut self, name: &str) -> Reach
        ensures reached { result ≡ Reach.Reached → is_reached self.new ≡ true }
        ensures reads { result ≡ Reach.Reached → reads self.new ≡ file_named (named self.old) name.now }
        ensures faults { Counts (result ≡ Reach.Failed) (faults self.old) (faults self.new) };

    /// The file's length.
    fn size(&mut self) -> Size
        requires { is_reached self.old ≡ true }
        ensures size { Measures (reads self.old) result }
        ensures reads { reads self.new ≡ reads self.old }
        ensures crash { (c : List ℕ) → may_leave self.new c → may_leave self.old c }
        ensures time { Elapses (moment self.old) (moment self.new)
            (left_since self.old) (left_since self.new) (may_leave self.new) }
        ensures reached { is_reached self.new ≡ true }
        ensures faults { Counts (result ≡ Size.Failed) (faults self.old) (faults self.new) };

    /// Reads the file's bytes from a place on into the front of `into`, at least one of them before
    /// its end.
    fn read(&mut self, at: u64, into: &mut [u8]) -> Got
        requires room { 0 < length into.old }
        requires reached { is_reached self.old ≡ true }
        ensures bytes { Gives (reads self.old) at result into.new }
        ensures reads { reads self.new ≡ reads self.old }
        ensures crash { (c : List ℕ) → may_leave self.new c → may_leave self.old c }
        ensures time { Elapses (moment self.old) (moment self.new)
            (left_since self.old) (left_since self.new) (may_leave self.new) }
        ensures reached { is_reached self.new ≡ true }
        ensures faults { Counts (result ≡ Got.Failed) (faults self.old) (faults self.new) };

    /// Writes over what is there, and past the end; a gap before the place reads as zeros.
    fn write_at(&mut self, at: u64, piece: &[u8]) -> Wrote
        requires { is_reached self.old ≡ true }
        ensures written { result ≡ Wrote.Wrote → reads self.new ≡ written_in (reads self.old) at piece.now }
        ensures told { is_some (reads self.new) ≡ is_some (reads self.old) }
        ensures crash { Follows (Torn at (length piece.now))
            (may_leave self.old) (may_leave self.new) }
        ensures time { Elapses (moment self.old) (moment self.new)
            (left_since self.old) (left_since self.new) (may_leave self.new) }
        ensures reached { is_reached self.new ≡ true }
        ensures faults { Counts (result ≡ Wrote.Failed) (faults self.old) (faults self.new) };

    /// After it succeeds a crash leaves what a read gives.
    fn sync(&mut self) -> Synced
        requires { is_reached self.old ≡ true }
        ensures durable { result ≡ Synced.Synced
            → (c : List ℕ) → may_leave self.new c → reads self.new ≡ Some c }
        ensures reads { result ≡ Synced.Synced → reads self.new ≡ reads self.old }
        ensures told { is_some (reads self.new) ≡ is_some (reads self.old) }
        ensures crash { (c : List ℕ) → may_leave self.new c → may_leave self.old c }
        ensures time { Elapses (moment self.old) (moment self.new)
            (left_since self.old) (left_since self.new) (may_leave self.new) }
        ensures reached { is_reached self.new ≡ true }
        ensures faults { Counts (result ≡ Synced.Failed) (faults self.old) (faults self.new) };

    /// The disk as it reads is one of its images.
    ghost reads_image: { (disk : Self) (f : List ℕ) → reads disk ≡ Some f → may_leave disk f };

    /// This moment is one of those since an earlier one.
    ghost counts_now: { (disk : Self) (t : ℕ) (c : List ℕ)
        → t ≤ moment disk → may_leave disk c → left_since disk t c };

    /// Since this moment there is no other.
    ghost only_now: { (disk : Self) (c : List ℕ)
        → left_since disk (moment disk) c → may_leave disk c };
}
