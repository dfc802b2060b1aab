//! A hall under the rule.
ghost use Rattle.std.specs.Prelude.{◌≡◌, false, IfOk, None};
ghost use Rattle.left_right.specs.Sides.{view};
ghost use Rattle.store_snapshots.specs.Openings.{opening_at};
ghost use Rattle.store_snapshots.specs.Rule.{on_shelf, own_view};

use crate::hall::{Another, Hall};
use crate::rule::{ShelfWriter, joined};
use crate::ruled::RuledEntry;
use crate::shelf::Shelf;
use left_right::Absorb;
use std::alloc::AllocError;
use std::sync::Wait;
use store_versions::{Attachment, Directory};

/// Makes entries to the shelf of a writer whose list is still the opening's.
pub struct RuledHall<A: Attachment = ()>
where
    Shelf<A>: Absorb<Shelf<A>, State = Directory<A>>,
{
    pub(crate) writer: ShelfWriter<A>,
    pub(crate) refusals: u64,
    ghost knows: { view writer.desk.place ≡ own_view (on_shelf writer.desk.shown.value) },
}

impl<A: Attachment> RuledHall<A> {
    /// A hall over this writer that refused nothing yet.
    pub(crate) fn over(writer: ShelfWriter<A>) -> RuledHall<A>
        requires { view writer.desk.place ≡ own_view (on_shelf writer.desk.shown.value) }
        ensures writer { result.writer ≡ writer }
        ensures refusals { result.refusals ≡ 0 }
    {
        RuledHall {
            writer,
            refusals: 0,
        }
    }

    /// An entry of number 0 to what the writer shows. An error is the shelf's, and isn't counted.
    pub(crate) fn entry(&mut self) -> Result<RuledEntry<A>, AllocError>
        ensures opening { IfOk result (λ e. (view e.reader.place).opening
            ≡ opening_at (on_shelf self.old.writer.desk.shown.value)) }
        ensures list { IfOk result (λ e. (view e.reader.place).list
            ≡ (on_shelf self.old.writer.desk.shown.value).list) }
        ensures fresh { IfOk result (λ e. (e.number ≡ 0) × (e.told ≡ None)
            × (e.is_stuck ≡ false)) }
        ensures shown { self.new.writer.desk.shown ≡ self.old.writer.desk.shown }
        ensures refusals { self.new.refusals ≡ self.old.refusals }
    {
        let first = self.writer.published().directory.listed();
        let reader = joined(&mut self.writer)?;
        Ok(RuledEntry::over(reader, first))
    }

    /// Waits for the readers that are inside.
    pub(crate) fn close<R: Wait>(self, rt: &R) {
        let RuledHall {
            writer,
            refusals: _refusals,
        } = self;
        drop(writer.take(rt));
    }
}

impl<A: Attachment> Hall<RuledEntry<A>> for RuledHall<A> {
    ghost shown = { λ h. on_shelf h.writer.desk.shown.value };

    ghost refused = { λ h. h.refusals };

    fn another(&mut self) -> Another<RuledEntry<A>> {
        match self.entry() {
            Ok(entry) => Another::Made(entry),
            Err(_) => {
                self.refusals = self.refusals.saturating_add(1);
                Another::Refused
            }
        }
    }
}
