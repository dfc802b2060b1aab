//! A refresh is stored, and then published.
ghost use Rattle.std.specs.Prelude.{◌≡◌, ◌<◌, ◌+◌, ◌^◌, false, true, length, is_some, Ok, IfOk, OnErr};
ghost use Rattle.base_io.specs.Outside.{Counts};
ghost use Rattle.base_disk.specs.Disk.{LeavesOnly};
ghost use Rattle.store_journal.specs.Journal.{Stands, WithOrWithout};
ghost use Rattle.store_refresh_entries.specs.Change.{IsReadable, IsSpelled, IsStorable};
ghost use Rattle.store_refresh_entries.specs.Change.{spelling_of};
ghost use Rattle.store_state.specs.Versions.{is_accepted};
ghost use Rattle.store_versions.specs.Trials.{tables_of};
ghost use Rattle.store_durability.specs.Stored.{HasRoomForOne, Holds, IsNext, LeavesJournal, Stores};
ghost use Rattle.store_durability.specs.Stored.{payloads_of};

use crate::trial::{accept, refuse};
use base_disk::Disk;
use base_refusals::Cause;
use std::alloc::{AllocError, Global};
use std::sync::Wait;
use store_journal::{Appended, Journal};
use store_refresh_entries::RefreshPayload;
use store_snapshots::{Note, Publisher};
use store_state::{Refresh, RefreshError};
use store_versions::Attachment;

/// What comes of a refresh that is to be stored and published.
#[derive(Drop)]
pub enum StoredAnswer<A: Attachment = ()> {
    /// The refresh is on the disk, and readers are shown the version after it. The note tells of it.
    Published(Note<A>),
    /// The refresh was refused, and the disk wasn't touched.
    Refused(Cause),
    /// The disk failed, and nothing is published.
    Failed,
    /// The journal was shut before, and nothing is published.
    Shut,
}

/// Tries a refresh, the list's next one or, where none is left, one that comes to the list's end;
/// stores an accepted one, and only then publishes it. Where memory runs out nothing is published;
/// where it does so behind the store, the journal has one refresh more than the publisher, and is
/// shut from then on.
#[tactic(auto, using(crate::proofs::Outcomes::outcomes))]
pub fn publish_stored<A: Attachment, R: Wait, D: Disk>(
    rt: &R,
    alloc: Global,
    publisher: &mut Publisher<A>,
    journal: &mut Journal,
    disk: &mut D,
    refresh: Refresh,
) -> Result<StoredAnswer<A>, AllocError>
    requires reached { D.is_reached disk.old ≡ true }
    requires next { IsNext refresh publisher.old.version }
    requires list_room { HasRoomForOne publisher.old.version }
    requires storable { IsStorable refresh }
    requires room { journal.old.is_shut ≡ false
        → journal.old.end + (9 + length (spelling_of refresh)) < 2 ^ 62 }

    // A journal that isn't shut holds just the accepted refreshes, before and after.
    requires holds { Holds (D.may_leave disk.old) publisher.old.version journal.old }
    ensures holds { Holds (D.may_leave disk.new) publisher.new.version journal.new }

    ensures outcome { IfOk result
        (Stores refresh journal.old.is_shut publisher.old publisher.new) }
    ensures journal { IfOk result (LeavesJournal refresh journal.old journal.new) }

    // A crash at any moment of the call leaves the accepted refreshes, with this one or without.
    ensures any_moment { journal.old.is_shut ≡ false
        → LeavesOnly D.moment D.left_since disk.old disk.new
        (WithOrWithout IsSpelled (payloads_of publisher.old.version) (spelling_of refresh)) }

    // A refused refresh leaves the disk and the journal; so does each one where the journal is shut.
    ensures untouched { is_accepted (tables_of publisher.old.version) refresh ≡ false
        → (disk.new ≡ disk.old) × (journal.new ≡ journal.old) }
    ensures shut { journal.old.is_shut ≡ true
        → (disk.new ≡ disk.old) × (journal.new ≡ journal.old) }
    ensures failed { Counts (result ≡ Ok StoredAnswer.Failed)
        (D.faults disk.old) (D.faults disk.new) }
    ensures memory { OnErr result (publisher.new ≡ publisher.old) }
    ensures refused { publisher.new.refused ≡ publisher.old.refused }
    ensures told { is_some (D.reads disk.new) ≡ is_some (D.reads disk.old) }
    ensures reached { D.is_reached disk.new ≡ true }
{
    match publisher.tried(&refresh) {
        Ok(()) => {
            if journal.is_shut {
                return Ok(StoredAnswer::Shut);
            }
            store(rt, alloc, publisher, journal, disk, refresh)
        }
        Err(RefreshError::Refused(_)) => {
            let cause = refuse(rt, publisher, refresh)?;
            Ok(StoredAnswer::Refused(cause))
        }
        Err(RefreshError::OutOfMemory) => Err(AllocError),
    }
}

/// Stores an accepted refresh in a journal that takes more, and then publishes it.
#[tactic(auto, using(crate::proofs::Outcomes::outcomes))]
fn store<A: Attachment, R: Wait, D: Disk>(
    rt: &R,
    alloc: Global,
    publisher: &mut Publisher<A>,
    journal: &mut Journal,
    disk: &mut D,
    refresh: Refresh,
) -> Result<StoredAnswer<A>, AllocError>
    requires reached { D.is_reached disk.old ≡ true }
    requires next { IsNext refresh publisher.old.version }
    requires list_room { HasRoomForOne publisher.old.version }
    requires accepted { is_accepted (tables_of publisher.old.version) refresh ≡ true }
    requires readable { IsReadable refresh }
    requires working { journal.old.is_shut ≡ false }
    requires room { journal.old.end + (9 + length (spelling_of refresh)) < 2 ^ 62 }
    requires stands { Stands IsSpelled (D.may_leave disk.old) (payloads_of publisher.old.version)
        journal.old.end }
    ensures holds { Holds (D.may_leave disk.new) publisher.new.version journal.new }
    ensures outcome { IfOk result
        (Stores refresh journal.old.is_shut publisher.old publisher.new) }
    ensures journal { IfOk result (LeavesJournal refresh journal.old journal.new) }
    ensures any_moment { LeavesOnly D.moment D.left_since disk.old disk.new
        (WithOrWithout IsSpelled (payloads_of publisher.old.version) (spelling_of refresh)) }
    ensures failed { Counts (result ≡ Ok StoredAnswer.Failed)
        (D.faults disk.old) (D.faults disk.new) }
    ensures memory { OnErr result (publisher.new ≡ publisher.old) }
    ensures refused { publisher.new.refused ≡ publisher.old.refused }
    ensures told { is_some (D.reads disk.new) ≡ is_some (D.reads disk.old) }
    ensures reached { D.is_reached disk.new ≡ true }
{
    match journal.append::<D, RefreshPayload>(alloc, disk, &refresh)? {
        Appended::Stored => match accept(rt, publisher, refresh) {
            Ok(note) => Ok(StoredAnswer::Published(note)),
            Err(error) => {
                // The journal has one refresh more than the publisher: it takes no further one.
                journal.shut();
                Err(error)
            }
        },
        Appended::Failed => Ok(StoredAnswer::Failed),
        Appended::Shut => unreachable!(),
    }
}
