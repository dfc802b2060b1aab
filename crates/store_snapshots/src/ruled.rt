//! An entry under the rule.
ghost use Rattle.std.specs.Prelude.{◌≡◌, ◌≤◌, ◌⊎◌, IsTrue, None, false};
ghost use Rattle.std.specs.Option.{ForSome};
ghost use Rattle.std.specs.Arc.{arc_value};
ghost use Rattle.left_right.specs.Sides.{view};
ghost use Rattle.store_state.specs.Prefixes.{IsPrefix};
ghost use Rattle.store_versions.specs.Trials.{version_of};
ghost use Rattle.store_snapshots.specs.Entries.{PassesUncounted};
ghost use Rattle.store_snapshots.specs.Openings.{AreOfOne, HasOpening, IsNamed};

use crate::entry::{Entered, Entry};
use crate::note::Note;
use crate::rule::{Seeing, ShelfReader};
use core::mem::replace_with;
use std::mem::replace;
use std::sync::Arc;
use store_versions::{Attachment, Directory};

/// An entry by a reader of the shelf. Its number is that of the last version that it gave or was
/// told of.
///
/// It keeps a version that it was told of up to the next one that it gives. The rule doesn't say
/// that the list of a version which is entered begins with the kept one's, so the two are compared,
/// from the end of the opening's list on.
#[derive(Drop)]
pub struct RuledEntry<A: Attachment = ()> {
    reader: ShelfReader<A>,
    /// How many refreshes the opening's list has.
    first: usize,
    number: u64,
    told: Option<Arc<Directory<A>>>,
    /// Whether it was told of two lists of which neither begins with the other. Then each entry is
    /// refused from that moment on. No publisher tells so.
    is_stuck: bool,
    entries: u64,
    refusals: u64,
    ghost named: { IsNamed (view reader.place).opening first },
    ghost opened: { ForSome told (λ t. HasOpening (view reader.place).opening (arc_value t)) },
}

impl<A: Attachment> RuledEntry<A> {
    /// An entry of this reader that has given nothing and was told of nothing.
    pub(crate) fn over(reader: ShelfReader<A>, first: usize) -> RuledEntry<A>
        requires { IsNamed (view reader.place).opening first }
        ensures reader { result.reader ≡ reader }
        ensures fresh { (result.number ≡ 0) × (result.told ≡ None) × (result.is_stuck ≡ false) }
    {
        RuledEntry {
            reader,
            first,
            number: 0,
            told: None,
            is_stuck: false,
            entries: 0,
            refusals: 0,
        }
    }
}

/// One entry of a reader.
fn enter_once<A: Attachment>(reader: ShelfReader<A>, _nothing: ()) -> (ShelfReader<A>, Entered<A>)
    ensures opening { (view result.0.place).opening ≡ (view reader.place).opening }
    ensures entered { PassesUncounted (view reader.place).opening (view reader.place).list
        (view result.0.place).list result.1 }
{
    match reader.enter_as::<Seeing>() {
        Ok(reading) => {
            let share = match Arc::try_clone(&reading.get().directory) {
                Ok(share) => Entered::Share(share),
                Err(_) => Entered::OutOfMemory,
            };
            (reading.leave(), share)
        }
        Err(reader) => (reader, Entered::Refused),
    }
}

/// Whether a version's list is found to begin with that of another of the same opening, whose list
/// has so many refreshes.
fn is_longer<A: Attachment>(now: &Directory<A>, before: &Directory<A>, first: usize) -> bool
    requires { AreOfOne first before.now now.now }
    ensures { IsTrue result → IsPrefix before.now.list now.now.list }
{
    now.begins_with(before, first)
}

/// Whether a version's list is found to begin with that of the version that was told of.
fn is_after<A: Attachment>(
    told: &Option<Arc<Directory<A>>>,
    now: &Directory<A>,
    first: usize,
) -> bool
    requires { ForSome told.now (λ t. AreOfOne first (arc_value t) now.now) }
    ensures { IsTrue result → ForSome told.now (λ t. IsPrefix (arc_value t).list now.now.list) }
{
    match told {
        Some(told) => is_longer(now, &**told, first),
        None => true,
    }
}

/// The one of two versions that were told of whose list is found to begin with the other's, and
/// whether neither was found to do so.
fn longer_of<A: Attachment>(
    before: Arc<Directory<A>>,
    now: Arc<Directory<A>>,
    first: usize,
) -> (Arc<Directory<A>>, bool)
    requires { AreOfOne first (arc_value before) (arc_value now) }
    ensures before { result.1 ≡ false → IsPrefix (arc_value before).list (arc_value result.0).list }
    ensures now { result.1 ≡ false → IsPrefix (arc_value now).list (arc_value result.0).list }
    ensures either { (result.0 ≡ before) ⊎ (result.0 ≡ now) }
{
    if is_longer(&*now, &*before, first) {
        (now, false)
    } else if is_longer(&*before, &*now, first) {
        (before, false)
    } else {
        (now, true)
    }
}

impl<A: Attachment> Entry for RuledEntry<A> {
    type Note = Note<A>;

    type Attached = A;

    ghost opening = { λ e. (view e.reader.place).opening };

    ghost fits = { λ e list. IsPrefix (view e.reader.place).list list
        × ForSome e.told (λ t. IsPrefix (arc_value t).list list) × (e.is_stuck ≡ false) };

    ghost number = { λ e. e.number };

    ghost entries = { λ e. e.entries };

    ghost refusals = { λ e. e.refusals };

    ghost note_version = { λ n. arc_value n.share };

    fn enter(&mut self) -> Entered<A> {
        match replace_with(&mut self.reader, (), enter_once) {
            Entered::Share(share) => {
                // No version is published that is before one told of; the rule does not say so.
                if self.is_stuck
                    || share.version() < self.number
                    || !is_after(&self.told, &*share, self.first)
                {
                    self.refusals = self.refusals.saturating_add(1);
                    return Entered::Refused;
                }
                self.number = share.version();
                self.told = None;
                self.entries = self.entries.saturating_add(1);
                Entered::Share(share)
            }
            Entered::Refused => {
                self.refusals = self.refusals.saturating_add(1);
                Entered::Refused
            }
            Entered::OutOfMemory => Entered::OutOfMemory,
        }
    }

    fn learn(&mut self, note: Note<A>) -> Arc<Directory<A>> {
        let Note { share, kept } = note;
        self.number = self.number.max(share.version());
        match replace(&mut self.told, None) {
            Some(before) => {
                let (longer, apart) = longer_of(before, kept, self.first);
                self.told = Some(longer);
                self.is_stuck = self.is_stuck || apart;
            }
            None => self.told = Some(kept),
        }
        share
    }
}
