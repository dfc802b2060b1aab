//! A write and its sync.
ghost use Rattle.std.specs.Prelude.{◌≡◌, ℕ, List, true, false, is_some, length};
ghost use Rattle.base_io.specs.Outside.{Counts};
ghost use Rattle.base_disk.specs.Disk.{Follows, LeavesOnly};
ghost use Rattle.store_journal.specs.Journal.{SameOrTorn, Written};

use base_disk::{Disk, Synced, Wrote};

/// Writes the piece at the place and syncs, and answers whether both were done. A crash at any
/// moment leaves what it might have left before, or that with the range torn; where both were done,
/// that with the piece in its place.
pub(crate) fn write_and_sync<D: Disk>(disk: &mut D, at: u64, piece: &[u8]) -> bool
    requires { D.is_reached disk.old ≡ true }
    ensures done { result ≡ true
        → Follows (Written at piece.now) (D.may_leave disk.old) (D.may_leave disk.new) }
    ensures images { (c : List ℕ) → D.may_leave disk.new c
        → SameOrTorn (D.may_leave disk.old) at (length piece.now) c }
    ensures any_moment { LeavesOnly D.moment D.left_since disk.old disk.new
        (SameOrTorn (D.may_leave disk.old) at (length piece.now)) }
    ensures told { is_some (D.reads disk.new) ≡ is_some (D.reads disk.old) }
    ensures reached { D.is_reached disk.new ≡ true }
    ensures faults { Counts (result ≡ false) (D.faults disk.old) (D.faults disk.new) }
{
    match disk.write_at(at, piece) {
        Wrote::Failed => false,
        Wrote::Wrote => match disk.sync() {
            Synced::Failed => false,
            Synced::Synced => true,
        },
    }
}
