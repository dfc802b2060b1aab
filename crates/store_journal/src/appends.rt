//! Appends one after the other.
ghost use Rattle.std.specs.Prelude.{◌≡◌, ◌<◌, ◌+◌, ◌^◌, ◌++◌, ℕ, List, true, map, length, IfOk};
ghost use Rattle.std.specs.List.{AllByRecursion};
ghost use Rattle.base_io.specs.Outside.{Counts};
ghost use Rattle.base_disk.specs.Disk.{LeavesOnly};
ghost use Rattle.store_journal.specs.Format.{IsEntry, entries};
ghost use Rattle.store_journal.specs.Journal.{Stands, StandsForSome};

use crate::journal::{Appended, Journal};
use crate::payload::Payload;
use base_disk::Disk;
use std::alloc::{AllocError, Global};

/// Adds refreshes in order until one isn't stored, and answers how many were and the last answer.
pub fn append_all<D: Disk, P: Payload>(
    alloc: Global,
    journal: &mut Journal,
    disk: &mut D,
    values: &[P::Value],
) -> Result<(usize, Appended), AllocError>
    requires reached { D.is_reached disk.old ≡ true }
    requires spelled { AllByRecursion (IsEntry P.is_payload) (map P.spelling values.now) }
    requires room { journal.old.end + length (entries (map P.spelling values.now)) < 2 ^ 62 }

    // A crash at any moment leaves the refreshes from before and some of these, in order, none
    // skipped.
    ensures any_moment { (ps : List (List ℕ))
        → Stands P.is_payload (D.may_leave disk.old) ps journal.old.end
        → LeavesOnly D.moment D.left_since disk.old disk.new
        (StandsForSome P.is_payload 0 ps (map P.spelling values.now)) }

    // In the end each crash leaves at least those that were acknowledged.
    ensures acknowledged { IfOk result (λ r. (ps : List (List ℕ))
        → Stands P.is_payload (D.may_leave disk.old) ps journal.old.end
        → (c : List ℕ) → D.may_leave disk.new c
        → StandsForSome P.is_payload r.0 ps (map P.spelling values.now) c) }
    ensures all { IfOk result (λ r. r.1 ≡ Appended.Stored → (r.0 ≡ length values.now)
        × ((ps : List (List ℕ)) → Stands P.is_payload (D.may_leave disk.old) ps journal.old.end
        → Stands P.is_payload (D.may_leave disk.new) (ps ++ map P.spelling values.now)
        journal.new.end)) }
    ensures failed { IfOk result (λ r. Counts (r.1 ≡ Appended.Failed)
        (D.faults disk.old) (D.faults disk.new)) }
    ensures reached { D.is_reached disk.new ≡ true }
{
    let mut count = 0;
    for value in values {
        match journal.append::<D, P>(alloc, disk, value)? {
            Appended::Stored => count += 1,
            other => return Ok((count, other)),
        }
    }
    Ok((count, Appended::Stored))
}
