//! Readers of published versions.
ghost use Rattle.std.specs.Prelude.{◌≡◌, ◌≤◌, length, IfOk, OnErr};
ghost use Rattle.std.specs.Arc.{arc_value};
ghost use Rattle.store_versions.specs.Trials.{version_of};
ghost use Rattle.store_snapshots.specs.Halls.{AreSeated, HaveSeenLists, SeatsEnough};
ghost use Rattle.store_snapshots.specs.Openings.{AllBegin, IsOf, Narrower, opening_at};
ghost use Rattle.store_snapshots.specs.Seen.{Began};

use std::alloc::{AllocError, Global};
use std::sync::Arc;
use store_snapshots::{Entry, Hall, Reader, Snapshot};
use store_versions::Directory;

/// As [`Reader::begin`].
pub fn begin<E: Entry + Drop>(reader: &mut Reader<E>) -> Result<Snapshot<E::Attached>, AllocError>
    ensures opening { E.opening reader.new.entry ≡ E.opening reader.old.entry }
    ensures of_opening { IsOf (E.opening reader.new.entry) reader.new.seen }
    ensures more { Narrower (E.fits reader.old.entry) (E.fits reader.new.entry) }
    ensures seen_list { AllBegin (E.fits reader.new.entry) reader.new.seen.list }
    ensures later { version_of reader.old.seen ≤ version_of reader.new.seen }
    ensures snapshot { IfOk result
        (λ s. IsOf (E.opening reader.old.entry) s
        × (version_of s ≡ version_of reader.new.seen)) }
    ensures list { IfOk result (λ s. AllBegin (E.fits reader.new.entry) s.list) }
    ensures cause { IfOk result
        (λ s. Began (E.number reader.new.entry) (E.entries reader.old.entry)
        (E.entries reader.new.entry) (E.refusals reader.old.entry) (E.refusals reader.new.entry)
        (version_of reader.old.seen) (version_of s)) }
    ensures number { E.number reader.old.entry ≤ E.number reader.new.entry }
    ensures err { OnErr result (reader.new.seen ≡ reader.old.seen) }
{
    reader.begin()
}

/// As [`store_snapshots::seat`].
pub fn seat<E: Entry + Drop, H: Hall<E>>(
    alloc: Global,
    first: E,
    start: &Arc<Directory<E::Attached>>,
    hall: &mut H,
    want: usize,
) -> Result<Vec<Reader<E>>, AllocError>
    requires want { 1 ≤ want }
    requires opening { E.opening first ≡ opening_at (H.shown hall.old) }
    requires list { AllBegin (E.fits first) (H.shown hall.old).list }
    requires number { E.number first ≡ 0 }
    requires start { arc_value start.now ≡ H.shown hall.old }
    requires fresh { version_of (H.shown hall.old) ≡ 0 }
    ensures shown { H.shown hall.new ≡ H.shown hall.old }
    ensures readers { IfOk result
        (λ readers. AreSeated E.opening (H.shown hall.old) readers.items) }
    ensures lists { IfOk result (λ readers. HaveSeenLists E.fits readers.items) }
    ensures enough { IfOk result
        (λ readers. SeatsEnough want (length readers.items) (H.refused hall.old)
        (H.refused hall.new)) }
{
    store_snapshots::seat(alloc, first, start, hall, want)
}
