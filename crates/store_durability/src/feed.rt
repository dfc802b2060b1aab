//! A publisher's list, each refresh of which is stored before it is published.
ghost use Rattle.std.specs.Prelude.{◌≡◌, ◌≢◌, [], Ok, Some, IfOk, OnErr, false, slice_get};
ghost use Rattle.base_io.specs.Outside.{Counts};
ghost use Rattle.base_disk.specs.Disk.{LeavesOnly};
ghost use Rattle.store_snapshots.specs.Turns.{IsAllTried, ListFits, list_tried};
ghost use Rattle.store_versions.specs.Trials.{Trials};
ghost use Rattle.store_durability.specs.Feed.{StoredFits, TakesStoredTurn, WithNextOrWithout};

use crate::stored::{StoredAnswer, publish_stored};
use base_disk::Disk;
use base_refusals::Cause;
use std::alloc::{AllocError, Global};
use std::sync::Wait;
use store_journal::Journal;
use store_snapshots::{Feed, FeedError, FeedTurn, Note, Publisher, Snapshot};
use store_state::Refresh;
use store_versions::Attachment;

/// What comes of a turn.
#[derive(Drop)]
pub enum StoredTurn<A: Attachment = ()> {
    /// A refresh was stored, and readers are shown the version after it. The note tells of it.
    Published(Note<A>),
    /// A refresh was refused.
    Refused(Cause),
    /// The disk failed. No turn is to be asked for any more.
    Failed,
    /// Nothing: each refresh of the list was tried.
    Ended,
}

/// The refreshes that a publisher's list has left, each of which is stored on the disk before it is
/// published, while the journal holds just the accepted ones.
#[derive(Drop)]
pub struct StoredFeed<D: Disk, A: Attachment = ()> {
    pub alloc: Global,
    pub journal: Journal,
    pub disk: D,
    start: Snapshot<A>,
    count: usize,
}

impl<D: Disk, A: Attachment> StoredFeed<D, A> {
    /// Those that a publisher of this version has left.
    pub fn new(alloc: Global, journal: Journal, disk: D, start: Snapshot<A>) -> StoredFeed<D, A>
        ensures start { (result.start ≡ start) × (result.count ≡ 0) }
        ensures parts { (result.journal ≡ journal) × (result.disk ≡ disk) }
    {
        StoredFeed {
            alloc,
            journal,
            disk,
            start,
            count: 0,
        }
    }

    /// The disk, given back.
    pub fn into_disk(self) -> D
        ensures { result ≡ self.disk }
    {
        self.disk
    }

    /// Has the publisher try its list's next refresh. After an error, or after Failed, no turn is
    /// to be asked for: the disk may hold one refresh more than the publisher.
    #[tactic(auto, using(crate::proofs::Feeding::feeding))]
    pub fn try_next<R: Wait>(
        &mut self,
        rt: &R,
        publisher: &mut Publisher<A>,
    ) -> Result<StoredTurn<A>, AllocError>
        requires { StoredFits D.is_reached D.may_leave self.old.journal self.old.disk
            publisher.old.version }
        ensures turn { IfOk result (TakesStoredTurn publisher.old publisher.new) }
        ensures fits { IfOk result (λ turn. turn ≢ StoredTurn.Failed
            → StoredFits D.is_reached D.may_leave self.new.journal self.new.disk
            publisher.new.version) }

        // A crash at any moment of the turn leaves the accepted refreshes, with the next one or
        // without.
        ensures any_moment { LeavesOnly D.moment D.left_since self.old.disk self.new.disk
            (WithNextOrWithout publisher.old.version) }
        ensures failed { Counts (result ≡ Ok StoredTurn.Failed)
            (D.faults self.old.disk) (D.faults self.new.disk) }
        ensures refused { publisher.new.refused ≡ publisher.old.refused }
        ensures count { (self.new.count ≡ self.old.count) × (self.new.start ≡ self.old.start) }
        ensures err { OnErr result (publisher.new ≡ publisher.old) }
    {
        match publisher.next()? {
            Some(refresh) => self.try_listed(rt, publisher, refresh),
            None => Ok(StoredTurn::Ended),
        }
    }

    /// Has the publisher try its list's next refresh, which is this one.
    #[tactic(auto, using(crate::proofs::Feeding::trying))]
    fn try_listed<R: Wait>(
        &mut self,
        rt: &R,
        publisher: &mut Publisher<A>,
        refresh: Refresh,
    ) -> Result<StoredTurn<A>, AllocError>
        requires fits { StoredFits D.is_reached D.may_leave self.old.journal self.old.disk
            publisher.old.version }
        requires next { slice_get publisher.old.version.list publisher.old.version.done
            ≡ Some refresh }
        ensures turn { IfOk result (TakesStoredTurn publisher.old publisher.new) }
        ensures fits { IfOk result (λ turn. turn ≢ StoredTurn.Failed
            → StoredFits D.is_reached D.may_leave self.new.journal self.new.disk
            publisher.new.version) }
        ensures any_moment { LeavesOnly D.moment D.left_since self.old.disk self.new.disk
            (WithNextOrWithout publisher.old.version) }
        ensures failed { Counts (result ≡ Ok StoredTurn.Failed)
            (D.faults self.old.disk) (D.faults self.new.disk) }
        ensures refused { publisher.new.refused ≡ publisher.old.refused }
        ensures count { (self.new.count ≡ self.old.count) × (self.new.start ≡ self.old.start) }
        ensures err { OnErr result (publisher.new ≡ publisher.old) }
    {
        let journal = &mut self.journal;
        match publish_stored(rt, self.alloc, publisher, journal, &mut self.disk, refresh)? {
            StoredAnswer::Published(note) => Ok(StoredTurn::Published(note)),
            StoredAnswer::Refused(cause) => Ok(StoredTurn::Refused(cause)),
            StoredAnswer::Failed => Ok(StoredTurn::Failed),
            StoredAnswer::Shut => unreachable!(),
        }
    }
}

impl<D: Disk, A: Attachment> Feed for StoredFeed<D, A> {
    type Attached = A;

    ghost tried = { λ f. list_tried f.start f.count };

    ghost source = { λ f. [] };

    ghost fits = { λ f (version : Trials).
        StoredFits D.is_reached D.may_leave f.journal f.disk version
        × ListFits f.start f.count version };

    ghost is_over = { λ f. IsAllTried };

    ghost faults = { λ f. D.faults f.disk };

    #[tactic(auto, using(crate::proofs::ListTurns::list_turns))]
    fn turn<R: Wait>(
        &mut self,
        rt: &R,
        publisher: &mut Publisher<A>,
    ) -> Result<FeedTurn<A>, FeedError> {
        let _listed = publisher.listed();
        match self.try_next(rt, publisher)? {
            StoredTurn::Published(note) => {
                self.count += 1;
                Ok(FeedTurn::Published(None, note))
            }
            StoredTurn::Refused(cause) => {
                self.count += 1;
                Ok(FeedTurn::Refused(None, cause))
            }
            StoredTurn::Failed => Err(FeedError::Failed),
            StoredTurn::Ended => Ok(FeedTurn::Ended),
        }
    }
}
