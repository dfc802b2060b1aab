//! A publisher's list and then what two senders send: each is stored before it is published.
ghost use Rattle.std.specs.Prelude.{◌≡◌, ◌<◌, ◌++◌, length, IfOk, IsErrOf, OnErr, OnOk};
ghost use Rattle.base_io.specs.Outside.{Counts};
ghost use Rattle.store_gateway.specs.Feeds.{GatewayIsOver, gateway_tried};
ghost use Rattle.store_refresh_entries.specs.Change.{MayBeStored};
ghost use Rattle.store_snapshots.specs.Turns.{TakesTurn, list_tried};
ghost use Rattle.store_versions.specs.Trials.{Trials, one_more};
ghost use Rattle.store_durability.specs.Gateway.{BothFit, KeepsUp, TakesThis, both_named};
ghost use Rattle.store_durability.specs.Stored.{HasRoomForOne, IsNext, trials_with};

use crate::stored::{StoredAnswer, publish_stored};
use base_disk::Disk;
use std::alloc::Global;
use std::sync::Wait;
use store_gateway::{Taker, Took};
use store_journal::Journal;
use store_snapshots::{Feed, FeedError, FeedTurn, Publisher, Snapshot};
use store_state::Refresh;
use store_versions::Attachment;

/// The refreshes that a publisher's list has left, and then those of two senders. Each is stored on
/// the disk before it is published, while the journal holds just the accepted ones.
#[derive(Drop)]
pub struct StoredGateway<D: Disk, A: Attachment = ()> {
    pub alloc: Global,
    pub journal: Journal,
    pub disk: D,
    start: Snapshot<A>,
    count: usize,
    taker: Taker,
}

impl<D: Disk, A: Attachment> StoredGateway<D, A> {
    /// Those that a publisher of this version has left, and all that is sent.
    pub fn new(
        alloc: Global,
        journal: Journal,
        disk: D,
        start: Snapshot<A>,
        taker: Taker,
    ) -> StoredGateway<D, A>
        ensures start { (result.start ≡ start) × (result.count ≡ 0) }
        ensures parts { (result.journal ≡ journal) × (result.disk ≡ disk)
            × (result.taker ≡ taker) }
    {
        StoredGateway {
            alloc,
            journal,
            disk,
            start,
            count: 0,
            taker,
        }
    }

    /// The disk, given back, and the one that took what was sent.
    pub fn into_parts(self) -> (D, Taker)
        ensures { (result.0 ≡ self.disk) × (result.1 ≡ self.taker) }
    {
        let StoredGateway {
            alloc: _alloc,
            journal: _journal,
            disk,
            start: _start,
            count: _count,
            taker,
        } = self;
        (disk, taker)
    }

    /// Has the publisher try this refresh, which is the list's next one or, where none is left,
    /// comes to its end.
    #[tactic(auto, using(crate::proofs::GatewayTurns::trying))]
    fn try_this<R: Wait>(
        &mut self,
        rt: &R,
        from: Option<u64>,
        publisher: &mut Publisher<A>,
        refresh: Refresh,
    ) -> Result<FeedTurn<A>, FeedError>
        requires keeps { KeepsUp D.is_reached D.may_leave self.old.journal self.old.disk
            publisher.old.version }
        requires more { publisher.old.version.done < publisher.old.version.most }
        requires storable { MayBeStored refresh }
        requires next { IsNext refresh publisher.old.version }
        requires list_room { HasRoomForOne publisher.old.version }
        ensures turn { IfOk result (TakesThis from refresh publisher.old publisher.new) }
        ensures version { OnOk result (publisher.new.version
            ≡ one_more (trials_with refresh publisher.old.version)) }
        ensures keeps { OnOk result (KeepsUp D.is_reached D.may_leave self.new.journal
            self.new.disk publisher.new.version) }
        ensures failed { Counts (IsErrOf result FeedError.Failed)
            (D.faults self.old.disk) (D.faults self.new.disk) }
        ensures taker { self.new.taker ≡ self.old.taker }
        ensures count { (self.new.count ≡ self.old.count) × (self.new.start ≡ self.old.start) }
        ensures refused { publisher.new.refused ≡ publisher.old.refused }
        ensures err { OnErr result (publisher.new ≡ publisher.old) }
    {
        let journal = &mut self.journal;
        match publish_stored(rt, self.alloc, publisher, journal, &mut self.disk, refresh)? {
            StoredAnswer::Published(note) => Ok(FeedTurn::Published(from, note)),
            StoredAnswer::Refused(cause) => Ok(FeedTurn::Refused(from, cause)),
            StoredAnswer::Failed => Err(FeedError::Failed),
            StoredAnswer::Shut => unreachable!(),
        }
    }

    /// Has the publisher, whose list has none left, try what was sent next, if it is there.
    #[tactic(auto, using(crate::proofs::GatewayTurns::sending))]
    fn try_sent<R: Wait>(
        &mut self,
        rt: &R,
        publisher: &mut Publisher<A>,
    ) -> Result<FeedTurn<A>, FeedError>
        requires fits { BothFit D.is_reached D.may_leave self.old.journal self.old.disk
            self.old.start self.old.count self.old.taker publisher.old.version }
        requires none { publisher.old.version.done ≡ length publisher.old.version.list }
        ensures turn { IfOk result (TakesTurn
            (list_tried self.old.start self.old.count ++ gateway_tried self.old.taker)
            (list_tried self.new.start self.new.count ++ gateway_tried self.new.taker)
            (GatewayIsOver self.new.taker) publisher.old publisher.new) }
        ensures fits { OnOk result (BothFit D.is_reached D.may_leave self.new.journal
            self.new.disk self.new.start self.new.count self.new.taker publisher.new.version) }
        ensures failed { Counts (IsErrOf result FeedError.Failed)
            (D.faults self.old.disk) (D.faults self.new.disk) }
        ensures start { self.new.start ≡ self.old.start }
        ensures gateway { self.new.taker.gateway ≡ self.old.taker.gateway }
        ensures refused { publisher.new.refused ≡ publisher.old.refused }
        ensures err { OnErr result (publisher.new ≡ publisher.old) }
    {
        // An end is no turn of its own. There are two at most.
        'taking: for _ in rt.forever() {
            if self.taker.is_ended() {
                return Ok(FeedTurn::Ended);
            }
            match self.taker.take(rt)? {
                Took::Took(id, refresh) => {
                    return self.try_this(rt, Some(id.number()), publisher, refresh);
                }
                Took::EndOf(_) => {}
                Took::Empty => return Ok(FeedTurn::Idle),
            }
        }
        unreachable!()
    }
}

impl<D: Disk, A: Attachment> Feed for StoredGateway<D, A> {
    type Attached = A;

    ghost tried = { λ f. list_tried f.start f.count ++ gateway_tried f.taker };

    ghost source = { λ f. both_named f.start f.taker };

    ghost fits = { λ f (version : Trials). BothFit D.is_reached D.may_leave f.journal f.disk
        f.start f.count f.taker version };

    ghost is_over = { λ f. GatewayIsOver f.taker };

    ghost faults = { λ f. D.faults f.disk };

    #[tactic(auto, using(crate::proofs::GatewayTurns::listing))]
    fn turn<R: Wait>(
        &mut self,
        rt: &R,
        publisher: &mut Publisher<A>,
    ) -> Result<FeedTurn<A>, FeedError> {
        let _listed = publisher.listed();
        match publisher.next()? {
            Some(refresh) => {
                let turn = self.try_this(rt, None, publisher, refresh)?;
                self.count += 1;
                Ok(turn)
            }
            None => self.try_sent(rt, publisher),
        }
    }
}
