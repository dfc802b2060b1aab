//! A job of which two senders send refreshes, and which keeps the accepted ones in a journal.
ghost use Rattle.std.specs.Prelude.{◌≡◌, ◌<◌, ◌≤◌, ◌^◌, IfOk, Some, false, length, map, true};
ghost use denote.Param.Send.{IsSync};
ghost use Rattle.base_io.specs.Outside.{Rose};
ghost use Rattle.store_gateway.specs.Feeds.{gateway_name};
ghost use Rattle.store_journal.specs.Journal.{Stands};
ghost use Rattle.store_refresh_entries.specs.Change.{IsSpelled, spelling_of};
ghost use Rattle.app_sessions.specs.Asked.{job_sessions};
ghost use Rattle.app_jobs.specs.Sources.{IsKeepable, IsRunnable, work_view};
ghost use Rattle.app_jobs.specs.Opened.{PlaysKept};
ghost use Rattle.app_jobs.specs.OpenedSent.{CanPlaySent, CanReceiveOver, HasReceivedOver, HaveEnded};
ghost use Rattle.app_jobs.specs.OpenedSent.{IsReceiveFault, IsReceivedOver, PlaysSent, Waits};
ghost use Rattle.app_jobs.specs.Reaching.{IsPlayFault};
ghost use Rattle.app_jobs.specs.Receivers.{MaySendBoth};

use crate::kept::{OpenJob, Played, open_job};
use crate::senders::{MOST_MESSAGES, Senders, divide, send_both};
use crate::sources::JobSources;
use app_sessions::{JobError, JobSetup, run_feed_job};
use base_disk::Disk;
use base_io::Gate;
use core::mem::replace_with;
use std::alloc::{AllocError, Global};
use std::sync::Wait;
use std::thread::{Threads, join_mut};
use store_durability::StoredGateway;
use store_gateway::{Ended, Taker, open_gateway};
use store_journal::Journal;
use store_snapshots::{Entry, Publisher, RuledEntry};
use store_state::Refresh;
use store_versions::Attachment;

/// An open job, its senders, and the one that takes what they send.
pub struct SentJob<A: Attachment, E: Entry + Drop> {
    /// The job, with a publisher of what nobody sends.
    pub opened: OpenJob<A, E>,
    /// Its senders.
    pub senders: Senders,
    /// What takes the refreshes that they send.
    pub taker: Taker,
    /// How many refreshes the publisher's list has in the end.
    pub most: usize,
}

/// Runs the sessions beside the publisher, which stays open. There is no text where too few
/// refreshes came.
fn play_received<
    A: Attachment + Send + Sync,
    R: Threads + Wait + Sync,
    D: Disk + Send,
    G: Gate + Sync,
>(
    rt: &R,
    alloc: Global,
    gate: &G,
    setup: JobSetup<RuledEntry<A>>,
    publisher: &mut Publisher<A>,
    feed: &mut StoredGateway<D, A>,
) -> Result<Option<Played>, AllocError>
    requires { CanReceiveOver D.is_reached D.may_leave publisher.old.version publisher.old.shown
        feed.old.journal feed.old.disk feed.old.start feed.old.count feed.old.taker setup }
    ensures received { IfOk result (IsReceivedOver D.may_leave publisher.old.version setup.before
        (job_sessions setup.sessions.items) feed.new.disk feed.new.taker) }
    ensures gateway { gateway_name feed.new.taker.gateway
        ≡ gateway_name feed.old.taker.gateway }
    ensures failed { IfOk result (λ played. IsReceiveFault played
        → Rose (D.faults feed.old.disk) (D.faults feed.new.disk)) }
    ensures later { D.faults feed.old.disk ≤ D.faults feed.new.disk }
{
    match run_feed_job(rt, alloc, gate, setup, publisher, feed) {
        Ok(text) => Ok(Some(Played::Text(text))),
        Err(JobError::Failed) => Ok(Some(Played::DiskFault)),
        Err(JobError::OutOfMemory) => Err(AllocError),
        Err(JobError::TooFewRefreshes) => Ok(None),
    }
}

/// A job that is played beside its senders.
struct SentPlay<A: Attachment, E: Entry + Drop, D: Disk> {
    /// Its sessions, until they begin.
    waiting: Option<JobSetup<E>>,
    /// The publisher of its refreshes.
    publisher: Publisher<A>,
    /// What takes them, and stores those that are accepted.
    feed: StoredGateway<D, A>,
}

/// `play_received` with sessions that wait for it.
fn play_waiting<
    A: Attachment + Send + Sync,
    R: Threads + Wait + Sync,
    D: Disk + Send,
    G: Gate + Sync,
>(
    rt: &R,
    alloc: Global,
    gate: &G,
    play: &mut SentPlay<A, RuledEntry<A>, D>,
) -> Result<Option<Played>, AllocError>
    requires { Waits play.old.waiting (CanReceiveOver D.is_reached D.may_leave
        play.old.publisher.version play.old.publisher.shown play.old.feed.journal
        play.old.feed.disk play.old.feed.start play.old.feed.count play.old.feed.taker) }
    ensures received { IfOk result (HasReceivedOver D.may_leave play.old.publisher.version
        play.old.waiting play.new.feed.disk play.new.feed.taker) }
    ensures gateway { gateway_name play.new.feed.taker.gateway
        ≡ gateway_name play.old.feed.taker.gateway }
    ensures failed { IfOk result (λ played. IsReceiveFault played
        → Rose (D.faults play.old.feed.disk) (D.faults play.new.feed.disk)) }
    ensures later { D.faults play.old.feed.disk ≤ D.faults play.new.feed.disk }
{
    match play.waiting.take() {
        Some(setup) => {
            play_received(rt, alloc, gate, setup, &mut play.publisher, &mut play.feed)
        }
        None => unreachable!(),
    }
}

/// `send_both` with senders that wait for it.
fn send_waiting<R: Threads + Wait + Sync>(
    rt: &R,
    waiting: &mut Option<Senders>,
) -> Option<(Ended, Ended)>
    requires { Waits waiting.old MaySendBoth }
    ensures { HaveEnded waiting.old result }
{
    match waiting.take() {
        Some(senders) => Some(send_both(rt, senders)),
        None => unreachable!(),
    }
}

/// Runs senders in threads of their own, and the sessions beside the publisher, which stays open.
// What the publisher attaches is in one argument, so that the two closures borrow it once.
fn play_joined<
    A: Attachment + Send + Sync,
    R: Threads + Wait + Sync,
    D: Disk + Send,
    G: Gate + Sync,
>(
    rt: &R,
    alloc: Global,
    gate: &G,
    senders: &mut Option<Senders>,
    play: &mut SentPlay<A, RuledEntry<A>, D>,
) -> (Option<(Ended, Ended)>, Result<Option<Played>, AllocError>)
    requires senders { Waits senders.old MaySendBoth }
    requires play { Waits play.old.waiting (CanReceiveOver D.is_reached D.may_leave
        play.old.publisher.version play.old.publisher.shown play.old.feed.journal
        play.old.feed.disk play.old.feed.start play.old.feed.count play.old.feed.taker) }
    ensures ended { HaveEnded senders.old result.0 }
    ensures received { IfOk result.1 (HasReceivedOver D.may_leave play.old.publisher.version
        play.old.waiting play.new.feed.disk play.new.feed.taker) }
    ensures gateway { gateway_name play.new.feed.taker.gateway
        ≡ gateway_name play.old.feed.taker.gateway }
    ensures failed { IfOk result.1 (λ played. IsReceiveFault played
        → Rose (D.faults play.old.feed.disk) (D.faults play.new.feed.disk)) }
    ensures later { D.faults play.old.feed.disk ≤ D.faults play.new.feed.disk }
{
    let mut front = || -> Option<(Ended, Ended)>
        requires { IsSync R.row × Waits senders.now MaySendBoth }
        ensures { HaveEnded senders.entry.now result }
    { send_waiting(rt, senders) };
    let mut back = || -> Result<Option<Played>, AllocError>
        requires { IsSync R.row × IsSync G.row × IsSync A.row
            × Waits play.now.waiting (CanReceiveOver D.is_reached D.may_leave
            play.now.publisher.version play.now.publisher.shown play.now.feed.journal
            play.now.feed.disk play.now.feed.start play.now.feed.count play.now.feed.taker) }
        ensures received { IfOk result (HasReceivedOver D.may_leave
            play.entry.now.publisher.version play.entry.now.waiting play.exit.now.feed.disk
            play.exit.now.feed.taker) }
        ensures gateway { gateway_name play.exit.now.feed.taker.gateway
            ≡ gateway_name play.entry.now.feed.taker.gateway }
        ensures failed { IfOk result (λ played. IsReceiveFault played
            → Rose (D.faults play.entry.now.feed.disk) (D.faults play.exit.now.feed.disk)) }
        ensures later { D.faults play.entry.now.feed.disk ≤ D.faults play.exit.now.feed.disk }
    { play_waiting(rt, alloc, gate, play) };
    join_mut(rt, &mut front, &mut back)
}

/// What comes of an open job beside its senders: its disk, what took the refreshes that they sent,
/// their ends, and what was played.
type SentOutcome<D> = (
    D,
    Taker,
    Option<(Ended, Ended)>,
    Result<Option<Played>, AllocError>,
);

/// Runs an open job beside its senders over its disk.
fn play_beside_senders<
    A: Attachment + Send + Sync,
    R: Threads + Wait + Sync,
    D: Disk + Send,
    G: Gate + Sync,
>(rt: &R, gate: &G, disk: D, job: SentJob<A, RuledEntry<A>>) -> SentOutcome<D>
    requires { CanPlaySent D.is_reached D.may_leave job disk }
    ensures ended { HaveEnded (Some job.senders) result.2 }
    ensures received { IfOk result.3 (IsReceivedOver D.may_leave job.opened.publisher.version
        job.opened.before (job_sessions job.opened.sessions.items) result.0 result.1) }
    ensures gateway { gateway_name result.1.gateway ≡ gateway_name job.taker.gateway }
    ensures failed { IfOk result.3 (λ played. IsReceiveFault played
        → Rose (D.faults disk) (D.faults result.0)) }
    ensures later { D.faults disk ≤ D.faults result.0 }
{
    let SentJob {
        opened,
        senders,
        taker,
        most,
    } = job;
    let OpenJob {
        alloc,
        sessions,
        readers,
        publisher,
        journal,
        start,
        before,
    } = opened;
    let feed = StoredGateway::new(alloc, journal, disk, start, taker);
    let setup = JobSetup {
        sessions,
        readers,
        before,
        most,
    };
    let mut senders = Some(senders);
    let mut play = SentPlay {
        waiting: Some(setup),
        publisher,
        feed,
    };
    let (ended, played) = play_joined(rt, alloc, gate, &mut senders, &mut play);
    let SentPlay {
        waiting: _waiting,
        mut publisher,
        feed,
    } = play;
    publisher.close(rt);
    let (disk, taker) = feed.into_parts();
    (disk, taker, ended, played)
}

/// Runs the senders of an open job in threads of their own, and the sessions over the disk, which
/// is given back.
fn play_sent<A: Attachment + Send + Sync, R: Threads + Wait + Sync, D: Disk + Send, G: Gate + Sync>(
    rt: &R,
    gate: &G,
    disk: D,
    job: SentJob<A, RuledEntry<A>>,
) -> (D, Result<Played, AllocError>)
    requires { CanPlaySent D.is_reached D.may_leave job disk }
    ensures played { IfOk result.1 (PlaysSent D.may_leave job result.0) }
    ensures failed { IfOk result.1 (λ played. IsPlayFault played
        → Rose (D.faults disk) (D.faults result.0)) }
    ensures later { D.faults disk ≤ D.faults result.0 }
{
    let (disk, taker, ended, played) = play_beside_senders(rt, gate, disk, job);
    let Some((first, second)) = ended else {
        unreachable!()
    };
    match played {
        Ok(Some(Played::Text(text))) => {
            let _order = taker.close(first, second);
            (disk, Ok(Played::Text(text)))
        }
        Ok(Some(played)) => (disk, Ok(played)),
        Ok(None) => {
            let _order = taker.close(first, second);
            unreachable!()
        }
        Err(error) => (disk, Err(error)),
    }
}

/// `play_sent` over a disk that stays where it is.
fn play_sent_over<
    A: Attachment + Send + Sync,
    R: Threads + Wait + Sync,
    D: Disk + Send,
    G: Gate + Sync,
>(rt: &R, gate: &G, disk: &mut D, job: SentJob<A, RuledEntry<A>>) -> Result<Played, AllocError>
    requires playable { CanPlaySent D.is_reached D.may_leave job disk.old }
    ensures played { IfOk result (PlaysSent D.may_leave job disk.new) }
    ensures failed { IfOk result (λ played. IsPlayFault played
        → Rose (D.faults disk.old) (D.faults disk.new)) }
    ensures later { D.faults disk.old ≤ D.faults disk.new }
{
    let playing = |disk: D, job: SentJob<A, RuledEntry<A>>| -> (D, Result<Played, AllocError>)
        requires { IsSync R.row × IsSync G.row × IsSync A.row
            × CanPlaySent D.is_reached D.may_leave job disk }
        ensures played { IfOk result.1 (PlaysSent D.may_leave job result.0) }
        ensures failed { IfOk result.1 (λ played. IsPlayFault played
            → Rose (D.faults disk) (D.faults result.0)) }
        ensures later { D.faults disk ≤ D.faults result.0 }
    { play_sent(rt, gate, disk, job) };
    replace_with(disk, job, playing)
}

/// Runs the sessions beside a publisher of what the journal keeps and of the job's refreshes, some
/// of which two senders send.
pub fn run_kept_sent<
    A: Attachment + Send + Sync,
    R: Threads + Wait + Sync,
    D: Disk + Send,
    G: Gate + Sync,
>(
    rt: &R,
    alloc: Global,
    gate: &G,
    disk: &mut D,
    journal: Journal,
    kept: Vec<Refresh>,
    attachment: A,
    sources: JobSources,
) -> Result<Played, AllocError>
    requires right { A.is_right attachment sources.base }
    requires runnable { IsRunnable sources }
    requires sent { 0 < length sources.senders.items }
    requires keepable { IsKeepable sources }
    requires reached { D.is_reached disk.old ≡ true }
    requires working { journal.is_shut ≡ false }
    requires short { journal.end ≤ 2 ^ 61 }
    requires stands { Stands IsSpelled (D.may_leave disk.old) (map spelling_of kept.items)
        journal.end }
    ensures played { IfOk result (PlaysKept kept.items (D.reads disk.new) (work_view sources)
        (job_sessions sources.sessions.items)) }
    ensures failed { IfOk result (λ played. IsPlayFault played
        → Rose (D.faults disk.old) (D.faults disk.new)) }
    ensures later { D.faults disk.old ≤ D.faults disk.new }
{
    let JobSources {
        keeps: _keeps,
        sessions,
        base,
        mut list,
        before,
        senders,
        journal: _journal,
    } = sources;
    let count = kept.len();
    let most = count + list.len();
    let sent = list.split_off(before)?;
    let mut all = kept;
    all.append(&mut list)?;
    let (firsts, seconds) = divide(alloc, senders.as_slice(), sent)?;
    let quotas = (firsts.len() as u64, seconds.len() as u64);
    let (first, second, taker) = open_gateway(alloc, MOST_MESSAGES, quotas.0, quotas.1)?;
    let senders = Senders {
        first,
        second,
        firsts,
        seconds,
    };
    match open_job(
        rt,
        alloc,
        count,
        most,
        journal,
        all,
        attachment,
        (sessions, base, before),
    )? {
        Ok(opened) => {
            let job = SentJob {
                opened,
                senders,
                taker,
                most,
            };
            play_sent_over(rt, gate, disk, job)
        }
        Err(fault) => Ok(Played::Refused(fault)),
    }
}
