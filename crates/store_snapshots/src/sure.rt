//! An entry that is never refused, for tests.
ghost use Rattle.std.specs.Prelude.{◌≡◌, ◌≤◌, length, max};
ghost use Rattle.std.specs.List.{All};
ghost use Rattle.std.specs.Arc.{arc_value};
ghost use Rattle.store_state.specs.Prefixes.{IsPrefix};
ghost use Rattle.store_versions.specs.Trials.{version_of};
ghost use Rattle.store_snapshots.specs.Openings.{opening_at};

use crate::entry::{Entered, Entry};
use crate::note::Note;
use std::alloc::AllocError;
use std::sync::Arc;
use store_versions::{Attachment, Directory};

/// An entry that gives the versions of a list in turn, and then its last again. It gives none that
/// is before one that it gave or was told of: in its place it gives that one. All of them have the
/// opening's list, since that has all its refreshes from the first.
#[derive(Drop)]
pub struct SureEntry<A: Attachment = ()> {
    versions: Vec<Arc<Directory<A>>>,
    next: usize,
    last: Arc<Directory<A>>,
    entries: u64,
    ghost opened: { All (λ v. opening_at (arc_value v) ≡ opening_at (arc_value last))
        versions.items },
    ghost whole: { (arc_value last).most ≡ length (arc_value last).list },
}

impl<A: Attachment> SureEntry<A> {
    /// An entry that gives these versions, the first of which is of number 0.
    pub fn new(first: Arc<Directory<A>>, versions: Vec<Arc<Directory<A>>>) -> SureEntry<A>
        requires opened { All (λ v. opening_at (arc_value v) ≡ opening_at (arc_value first))
            versions.items }
        requires whole { (arc_value first).most ≡ length (arc_value first).list }
        ensures last { result.last ≡ first }
        ensures given { (result.versions ≡ versions) × (result.next ≡ 0) }
        ensures entries { result.entries ≡ 0 }
    {
        SureEntry {
            versions,
            next: 0,
            last: first,
            entries: 0,
        }
    }

    /// Goes on to a version of the opening, unless it is before the last one.
    fn go_to(&mut self, version: Arc<Directory<A>>)
        requires { opening_at (arc_value version) ≡ opening_at (arc_value self.old.last) }
        ensures given { (self.new.versions ≡ self.old.versions) × (self.new.next ≡ self.old.next) }
        ensures entries { self.new.entries ≡ self.old.entries }
        ensures opening { opening_at (arc_value self.new.last)
            ≡ opening_at (arc_value self.old.last) }
        ensures number { version_of (arc_value self.new.last)
            ≡ max (version_of (arc_value self.old.last)) (version_of (arc_value version)) }
    {
        if version.version() >= self.last.version() {
            self.last = version;
        }
    }

    /// Goes on to the next version of the list, unless there is none or it is before the last one.
    fn advance(&mut self) -> Result<(), AllocError>
        ensures entries { self.new.entries ≡ self.old.entries }
        ensures opening { opening_at (arc_value self.new.last)
            ≡ opening_at (arc_value self.old.last) }
        ensures later { version_of (arc_value self.old.last) ≤ version_of
            (arc_value self.new.last) }
    {
        if self.next < self.versions.len() {
            let version = Arc::try_clone(&self.versions[self.next])?;
            self.go_to(version);
            self.next += 1;
        }
        Ok(())
    }
}

impl<A: Attachment> Entry for SureEntry<A> {
    type Note = Note<A>;

    type Attached = A;

    ghost opening = { λ e. opening_at (arc_value e.last) };

    ghost fits = { λ e list. IsPrefix (arc_value e.last).list list };

    ghost number = { λ e. version_of (arc_value e.last) };

    ghost entries = { λ e. e.entries };

    ghost refusals = { λ e. 0 };

    ghost note_version = { λ n. arc_value n.share };

    fn enter(&mut self) -> Entered<A> {
        if self.advance().is_err() {
            return Entered::OutOfMemory;
        }
        match Arc::try_clone(&self.last) {
            Ok(share) => {
                self.entries = self.entries.saturating_add(1);
                Entered::Share(share)
            }
            Err(_) => Entered::OutOfMemory,
        }
    }

    fn learn(&mut self, note: Note<A>) -> Arc<Directory<A>> {
        let Note { share, kept } = note;
        let _listed = kept.listed();
        self.go_to(kept);
        share
    }
}
