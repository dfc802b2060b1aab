//! How a reader comes by the published version.
ghost use Rattle.std.specs.Prelude.{◌≡◌, ℕ, List, max};
ghost use Rattle.std.specs.Arc.{arc_value};
ghost use Rattle.store_state.specs.Refresh.{Change};
ghost use Rattle.store_versions.specs.Trials.{Trials, version_of};
ghost use Rattle.store_snapshots.specs.Openings.{AllBegin, IsOf, Narrower, Opening};
ghost use Rattle.store_snapshots.specs.Entries.{Enters};

use std::sync::Arc;
use store_versions::{Attachment, Directory};

/// What comes of an entry.
#[derive(Drop)]
pub enum Entered<A: Attachment = ()> {
    /// A share of the published version.
    Share(Arc<Directory<A>>),
    /// Nothing: the entry is refused.
    Refused,
    /// Nothing: memory ran out.
    OutOfMemory,
}

/// A way into the published version. It counts its successful and its refused reads.
/// The list of a version that it gives begins with each list that it saw before or was told of.
pub trait Entry {
    /// What tells it of a version.
    type Note;

    /// What is attached to its versions.
    type Attached: Attachment;

    /// The base of each version that it gives, the list with which that version's list begins, and
    /// how many refreshes the list will have in the end.
    ghost opening: { Self → Opening };

    /// The lists that begin with each list that it saw or was told of.
    ghost fits: { Self → List Change → Type 0 };

    /// The number of the last version that it gave or was told of.
    ghost number: { Self → ℕ };

    ghost entries: { Self → ℕ };

    ghost refusals: { Self → ℕ };

    /// The version that a note tells of.
    ghost note_version: { Self.Note → Trials };

    /// A share of the published version. Out of memory may have raised the number alone.
    fn enter(&mut self) -> Entered<Self::Attached>
        ensures opening { opening self.new ≡ opening self.old }
        ensures more { Narrower (fits self.old) (fits self.new) }
        ensures entered { Enters (opening self.old) (fits self.old) (fits self.new)
            (number self.old) (number self.new) (entries self.old) (entries self.new)
            (refusals self.old) (refusals self.new) result };

    /// The note's version, which its number is from now on at least. Nothing is counted.
    fn learn(&mut self, note: Self::Note) -> Arc<Directory<Self::Attached>>
        requires { IsOf (opening self.old) (note_version note) }
        ensures opening { opening self.new ≡ opening self.old }
        ensures more { Narrower (fits self.old) (fits self.new) }
        ensures told { AllBegin (fits self.new) (note_version note).list }
        ensures number { number self.new ≡ max (number self.old) (version_of (note_version note)) }
        ensures share { arc_value result ≡ note_version note }
        ensures entries { entries self.new ≡ entries self.old }
        ensures refusals { refusals self.new ≡ refusals self.old };
}
