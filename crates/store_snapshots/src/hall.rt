//! How entries are made.
ghost use Rattle.std.specs.Prelude.{◌≡◌, ℕ, ◌≤◌, IfOk, length};
ghost use Rattle.std.specs.Arc.{arc_value};
ghost use Rattle.store_versions.specs.Trials.{Trials, version_of};
ghost use Rattle.store_snapshots.specs.Halls.{AreSeated, HaveSeenLists, MakesEntry, SeatsEnough};
ghost use Rattle.store_snapshots.specs.Openings.{AllBegin, opening_at};

use crate::entry::Entry;
use crate::reader::Reader;
use std::alloc::{AllocError, Global};
use std::sync::Arc;
use store_versions::Directory;

/// What comes of a wish for an entry.
#[derive(Drop)]
pub enum Another<E> {
    /// An entry.
    Made(E),
    /// None.
    Refused,
}

/// What makes entries. It counts how often it refused one.
pub trait Hall<E: Entry> {
    /// The version that is shown, whose opening is that of each entry.
    ghost shown: { Self → Trials };

    ghost refused: { Self → ℕ };

    /// One entry more, of number 0; or none, and that alone is counted.
    fn another(&mut self) -> Another<E>
        ensures shown { shown self.new ≡ shown self.old }
        ensures made { MakesEntry E.opening E.fits E.number (shown self.old) (refused self.old)
            (refused self.new) result };
}

/// Makes readers by this entry and further ones of the hall, each of which has seen the opening's
/// directory: as many as are wanted, or fewer, but at least one, only where the hall refused.
pub fn seat<E: Entry + Drop, H: Hall<E>>(
    alloc: Global,
    first: E,
    start: &Arc<Directory<E::Attached>>,
    hall: &mut H,
    want: usize,
) -> Result<Vec<Reader<E>>, AllocError>
    requires want { 1 ≤ want }
    requires opening { E.opening first ≡ opening_at (H.shown hall.old) }
    requires list { AllBegin (E.fits first) (H.shown hall.old).list }
    requires number { E.number first ≡ 0 }
    requires start { arc_value start.now ≡ H.shown hall.old }
    requires fresh { version_of (H.shown hall.old) ≡ 0 }
    ensures shown { H.shown hall.new ≡ H.shown hall.old }
    ensures readers { IfOk result
        (λ readers. AreSeated E.opening (H.shown hall.old) readers.items) }
    ensures lists { IfOk result (λ readers. HaveSeenLists E.fits readers.items) }
    ensures enough { IfOk result
        (λ readers. SeatsEnough want (length readers.items) (H.refused hall.old)
        (H.refused hall.new)) }
{
    let mut readers = Vec::new(alloc);
    readers.push(Reader::new(first, Arc::try_clone(start)?))?;
    'seating: for _k in 1..want {
        match hall.another() {
            Another::Made(entry) => readers.push(Reader::new(entry, Arc::try_clone(start)?))?,
            Another::Refused => return Ok(readers),
        }
    }
    Ok(readers)
}
