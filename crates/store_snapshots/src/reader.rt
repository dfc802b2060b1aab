//! A reader, which keeps the version that it has seen.
ghost use Rattle.std.specs.Prelude.{◌≡◌, ◌≤◌, length, max, IfOk, OnErr, OnOk};
ghost use Rattle.std.specs.Arc.{arc_value};
ghost use Rattle.store_versions.specs.Trials.{version_of};
ghost use Rattle.store_snapshots.specs.Openings.{AllBegin, IsOf, Narrower};

use crate::entry::{Entered, Entry};
use crate::snapshot::Snapshot;
use std::alloc::AllocError;
use std::marker::Model;
use std::sync::{Arc, Wait};
use std::thread;
use store_versions::Directory;

/// An entry with a share of the version last seen.
#[derive(Drop)]
pub struct Reader<E: Entry + Drop> {
    entry: E,
    seen: Arc<Directory<E::Attached>>,
}

impl<E: Entry + Drop> Model for Reader<E> {
    ghost use Rattle.std.specs.Prelude.{◌≤◌};
    ghost use Rattle.std.specs.Arc.{arc_value};
    ghost use Rattle.store_versions.specs.Trials.{version_of};
    ghost use Rattle.store_snapshots.specs.Openings.{AllBegin, IsOf};
    ghost use Rattle.store_snapshots.specs.Seen.{ReaderState};

    ghost Value = { ReaderState E };

    ghost view = { λ r. record { entry = r.entry; seen = arc_value r.seen } };

    ghost invariant = { λ r. IsOf (E.opening r.entry) (arc_value r.seen)
        × (version_of (arc_value r.seen) ≤ E.number r.entry)
        × AllBegin (E.fits r.entry) (arc_value r.seen).list };
}

impl<E: Entry + Drop> Reader<E> {
    ghost use Rattle.store_snapshots.specs.Seen.{Began, ReaderState};

    /// A reader that has seen this version.
    pub fn new(entry: E, seen: Arc<Directory<E::Attached>>) -> Reader<E>
        requires opening { IsOf (E.opening entry) (arc_value seen) }
        requires number { version_of (arc_value seen) ≤ E.number entry }
        requires list { AllBegin (E.fits entry) (arc_value seen).list }
        ensures { result ≡ record { entry = entry; seen = arc_value seen } }
    {
        Reader { entry, seen }
    }

    /// The published version, or where the entry is refused the one that was seen. No publish waits
    /// for it. When memory runs out the version seen stays.
    pub fn begin(&mut self) -> Result<Snapshot<E::Attached>, AllocError>
        ensures opening { E.opening self.new.entry ≡ E.opening self.old.entry }
        ensures of_opening { IsOf (E.opening self.new.entry) self.new.seen }
        ensures more { Narrower (E.fits self.old.entry) (E.fits self.new.entry) }
        ensures seen_list { AllBegin (E.fits self.new.entry) self.new.seen.list }
        ensures later { version_of self.old.seen ≤ version_of self.new.seen }
        ensures snapshot { IfOk result
            (λ s. IsOf (E.opening self.old.entry) s × (version_of s ≡ version_of self.new.seen)) }
        ensures list { IfOk result (λ s. AllBegin (E.fits self.new.entry) s.list) }
        ensures cause { IfOk result
            (λ s. Began (E.number self.new.entry) (E.entries self.old.entry)
            (E.entries self.new.entry) (E.refusals self.old.entry) (E.refusals self.new.entry)
            (version_of self.old.seen) (version_of s)) }
        ensures number { E.number self.old.entry ≤ E.number self.new.entry }
        ensures err { OnErr result (self.new.seen ≡ self.old.seen) }
    {
        match self.entry.enter() {
            Entered::Share(share) => {
                let mine = Arc::try_clone(&share)?;
                self.seen = mine;
                Ok(Snapshot::over(share))
            }
            Entered::Refused => {
                let share = Arc::try_clone(&self.seen)?;
                Ok(Snapshot::over(share))
            }
            Entered::OutOfMemory => Err(AllocError),
        }
    }

    /// Has seen at least the note's version from now on. The list of each version that it begins at
    /// from then on begins with the note's. No memory is taken.
    pub fn learn(&mut self, note: E::Note)
        requires { IsOf (E.opening self.old.entry) (E.note_version note) }
        ensures opening { E.opening self.new.entry ≡ E.opening self.old.entry }
        ensures of_opening { IsOf (E.opening self.new.entry) self.new.seen }
        ensures more { Narrower (E.fits self.old.entry) (E.fits self.new.entry) }
        ensures seen_list { AllBegin (E.fits self.new.entry) self.new.seen.list }
        ensures told { AllBegin (E.fits self.new.entry) (E.note_version note).list }
        ensures seen { version_of self.new.seen
            ≡ max (version_of self.old.seen) (version_of (E.note_version note)) }
        ensures number { E.number self.new.entry
            ≡ max (E.number self.old.entry) (version_of (E.note_version note)) }
        ensures entries { E.entries self.new.entry ≡ E.entries self.old.entry }
        ensures refusals { E.refusals self.new.entry ≡ E.refusals self.old.entry }
    {
        let share = self.entry.learn(note);
        if share.version() > self.seen.version() {
            self.seen = share;
        }
    }

    /// Enters until an entry isn't refused; after a refusal it yields. The list of the version that
    /// it then has seen begins with each list that it saw or was told of.
    pub fn meet<R: Wait>(&mut self, rt: &R) -> Result<(), AllocError>
        ensures opening { E.opening self.new.entry ≡ E.opening self.old.entry }
        ensures of_opening { IsOf (E.opening self.new.entry) self.new.seen }
        ensures more { Narrower (E.fits self.old.entry) (E.fits self.new.entry) }
        ensures seen_list { AllBegin (E.fits self.new.entry) self.new.seen.list }
        ensures later { version_of self.old.seen ≤ version_of self.new.seen }
        ensures met { OnOk result (E.fits self.old.entry self.new.seen.list) }
        ensures short { OnOk result (length self.new.seen.list ≤ self.new.seen.most) }
        ensures number { E.number self.old.entry ≤ E.number self.new.entry }
    {
        'meeting: for _ in rt.forever() {
            match self.entry.enter() {
                Entered::Share(share) => {
                    let _listed = share.listed();
                    self.seen = share;
                    return Ok(());
                }
                Entered::Refused => thread::yield_now(),
                Entered::OutOfMemory => return Err(AllocError),
            }
        }
        unreachable!()
    }
}
