//! A job that keeps its accepted refreshes in a journal.
ghost use Rattle.std.specs.Prelude.{◌≡◌, ◌+◌, ◌<◌, ◌≤◌, ◌^◌, [], IfOk, OnOk, false, length, map};
ghost use Rattle.std.specs.Prelude.{true, vec_len};
ghost use denote.Param.Send.{IsSync};
ghost use Rattle.base_io.specs.Outside.{Rose};
ghost use Rattle.store_durability.specs.Feed.{StoredFits};
ghost use Rattle.store_journal.specs.Journal.{Stands};
ghost use Rattle.store_kept_views.specs.Kept.{kept as kept_rows};
ghost use Rattle.store_refresh_entries.specs.Change.{IsSpelled, spelling_of};
ghost use Rattle.store_snapshots.specs.Ruled.{opening_of};
ghost use Rattle.app_sessions.specs.Asked.{AllUnasked, job_sessions};
ghost use Rattle.app_sessions.specs.Workers.{AreOfOpening};
ghost use Rattle.app_jobs.specs.Sources.{IsKeepable, IsRunnable, work_view};
ghost use Rattle.app_jobs.specs.Opened.{CanPlay, IsFedText, OpensJob, PlaysKept};
ghost use Rattle.app_jobs.specs.Opened.{PlaysOpen, StartsBehind};
ghost use Rattle.app_jobs.specs.Reaching.{IsPlayFault, IsPlayed, PublishesKept};

use crate::journal::{Reached, reach_journal};
use crate::keeping::groups_of;
use crate::kept_senders::run_kept_sent;
use crate::sources::JobSources;
use app_inputs::InputFault;
use app_sessions::{JobError, JobSetup, JobText, Session, is_compaction_due, run_feed_job};
use base_disk::Disk;
use base_io::Gate;
use base_refusals::Cause;
use core::mem::replace_with;
use std::alloc::{AllocError, Global};
use std::marker::Brand;
use std::sync::Wait;
use std::thread::Threads;
use store_durability::StoredFeed;
use store_journal::Journal;
use store_kept_views::{Kept, KeptOf, Plans};
use store_snapshots::{Entry, Published, Publisher, Reader, RuledEntry, Snapshot, open};
use store_state::{Refresh, State};
use store_versions::Attachment;

/// What comes of a job with a journal.
#[derive(Drop)]
pub enum Played {
    /// Its text.
    Text(JobText),
    /// The journal's file is refused.
    Refused(InputFault),
    /// A call of the disk failed.
    DiskFault,
}

/// A job whose journal is open, with a publisher that has published what the journal keeps.
pub struct OpenJob<A: Attachment, E: Entry + Drop> {
    pub alloc: Global,
    pub sessions: Vec<Session>,
    /// What they read by: one for each session, or fewer where entries were refused.
    pub readers: Vec<Reader<E>>,
    pub publisher: Publisher<A>,
    pub journal: Journal,
    /// The version with just the journal's refreshes: what the publisher has left comes after it.
    pub start: Snapshot<A>,
    /// How many of the refreshes that are left come before the sessions.
    pub before: usize,
}

/// Puts the segments together where that is due at a version.
fn compact_when_due<A: Attachment, R: Wait>(
    rt: &R,
    version: u64,
    publisher: &mut Publisher<A>,
) -> Result<(), AllocError>
    requires { publisher.old.shown ≡ publisher.old.version }
    ensures version { publisher.new.version ≡ publisher.old.version }
    ensures shown { OnOk result (publisher.new.shown ≡ publisher.new.version) }
{
    if is_compaction_due(version) {
        publisher.compact(rt)
    } else {
        Ok(())
    }
}

/// Publishes the first refreshes of the list, which a journal keeps. Answers the first that is
/// refused, counted from 1, and why.
#[tactic(auto, using(crate::proofs::KeptRun::publishing))]
fn publish_kept<A: Attachment, R: Wait>(
    rt: &R,
    kept: usize,
    publisher: &mut Publisher<A>,
) -> Result<Option<(usize, Cause)>, AllocError>
    requires fresh { publisher.old.version.done ≡ 0 }
    requires shown { publisher.old.shown ≡ publisher.old.version }
    requires within { kept ≤ length publisher.old.version.list }
    ensures { IfOk result (PublishesKept kept publisher.old.version publisher.new.version
        publisher.new.shown) }
{
    for number in 0..kept {
        match publisher.publish_next(rt) {
            Published::Published(note) => compact_when_due(rt, note.version(), publisher)?,
            Published::Refused(cause) => return Ok(Some((number + 1, cause))),
            Published::NoMore => unreachable!(),
            Published::OutOfMemory => return Err(AllocError),
        }
    }
    Ok(None)
}

/// Runs the sessions beside the publisher, which stays open.
fn play_beside<
    A: Attachment + Send + Sync,
    R: Threads + Wait + Sync,
    D: Disk + Send,
    G: Gate + Sync,
>(
    rt: &R,
    alloc: Global,
    gate: &G,
    before: usize,
    sessions: Vec<Session>,
    readers: Vec<Reader<RuledEntry<A>>>,
    publisher: &mut Publisher<A>,
    feed: &mut StoredFeed<D, A>,
) -> Result<Played, AllocError>
    requires sessions { (0 < vec_len sessions) × (vec_len sessions < 2 ^ 32) }
    requires unasked { AllUnasked sessions.items }
    requires readers { 0 < vec_len readers }
    requires opened { AreOfOpening opening_of publisher.old.version readers.items }
    requires shown { publisher.old.shown ≡ publisher.old.version }
    requires whole { publisher.old.version.most ≡ length publisher.old.version.list }
    requires before { publisher.old.version.done + before ≤ length publisher.old.version.list }
    requires fits { StoredFits D.is_reached D.may_leave feed.old.journal feed.old.disk
        publisher.old.version }
    requires start { (feed.old.start ≡ publisher.old.version) × (feed.old.count ≡ 0) }
    ensures played { IfOk result (IsFedText D.may_leave publisher.old.version before
        (job_sessions sessions.items) feed.new.disk) }
    ensures failed { IfOk result (λ played. IsPlayFault played
        → Rose (D.faults feed.old.disk) (D.faults feed.new.disk)) }
    ensures later { D.faults feed.old.disk ≤ D.faults feed.new.disk }
{
    let setup = JobSetup {
        sessions,
        readers,
        before,
        most: publisher.listed(),
    };
    match run_feed_job(rt, alloc, gate, setup, publisher, feed) {
        Ok(text) => Ok(Played::Text(text)),
        Err(JobError::Failed) => Ok(Played::DiskFault),
        Err(JobError::OutOfMemory) => Err(AllocError),
        Err(JobError::TooFewRefreshes) => unreachable!(),
    }
}

/// Runs an open job over its disk, and gives the disk back.
fn play<A: Attachment + Send + Sync, R: Threads + Wait + Sync, D: Disk + Send, G: Gate + Sync>(
    rt: &R,
    gate: &G,
    disk: D,
    job: OpenJob<A, RuledEntry<A>>,
) -> (D, Result<Played, AllocError>)
    requires { CanPlay D.is_reached D.may_leave job disk }
    ensures played { IfOk result.1 (PlaysOpen D.may_leave job result.0) }
    ensures failed { IfOk result.1 (λ played. IsPlayFault played
        → Rose (D.faults disk) (D.faults result.0)) }
    ensures later { D.faults disk ≤ D.faults result.0 }
{
    let OpenJob {
        alloc,
        sessions,
        readers,
        mut publisher,
        journal,
        start,
        before,
    } = job;
    let mut feed = StoredFeed::new(alloc, journal, disk, start);
    let played = play_beside(
        rt,
        alloc,
        gate,
        before,
        sessions,
        readers,
        &mut publisher,
        &mut feed,
    );
    publisher.close(rt);
    (feed.into_disk(), played)
}

/// `play` over a disk that stays where it is.
fn play_over<A: Attachment + Send + Sync, R: Threads + Wait + Sync, D: Disk + Send, G: Gate + Sync>(
    rt: &R,
    gate: &G,
    disk: &mut D,
    job: OpenJob<A, RuledEntry<A>>,
) -> Result<Played, AllocError>
    requires playable { CanPlay D.is_reached D.may_leave job disk.old }
    ensures played { IfOk result (PlaysOpen D.may_leave job disk.new) }
    ensures failed { IfOk result (λ played. IsPlayFault played
        → Rose (D.faults disk.old) (D.faults disk.new)) }
    ensures later { D.faults disk.old ≤ D.faults disk.new }
{
    let playing = |disk: D, job: OpenJob<A, RuledEntry<A>>| -> (D, Result<Played, AllocError>)
        requires { IsSync R.row × IsSync G.row × IsSync A.row
            × CanPlay D.is_reached D.may_leave job disk }
        ensures played { IfOk result.1 (PlaysOpen D.may_leave job result.0) }
        ensures failed { IfOk result.1 (λ played. IsPlayFault played
            → Rose (D.faults disk) (D.faults result.0)) }
        ensures later { D.faults disk ≤ D.faults result.0 }
    { play(rt, gate, disk, job) };
    replace_with(disk, job, playing)
}

/// The version behind which the publisher has refreshes left, or the first refresh that is kept and
/// refused.
fn start_of<A: Attachment, R: Wait>(
    rt: &R,
    kept: usize,
    publisher: &mut Publisher<A>,
) -> Result<Result<Snapshot<A>, InputFault>, AllocError>
    requires fresh { publisher.old.version.done ≡ 0 }
    requires shown { publisher.old.shown ≡ publisher.old.version }
    requires within { kept ≤ length publisher.old.version.list }
    ensures { IfOk result (StartsBehind kept publisher.old.version publisher.new.version
        publisher.new.shown) }
{
    if let Some((number, cause)) = publish_kept(rt, kept, publisher)? {
        return Ok(Err(InputFault::RefusedEntry(number, cause)));
    }
    let start = publisher.snapshot()?;
    Ok(Ok(start))
}

/// Opens a job over a list whose first refreshes the journal keeps, and publishes these; or answers
/// which of them is refused.
pub fn open_job<A: Attachment, R: Wait>(
    rt: &R,
    alloc: Global,
    kept: usize,
    most: usize,
    journal: Journal,
    list: Vec<Refresh>,
    attachment: A,
    sources: (Vec<Session>, State, usize),
) -> Result<Result<OpenJob<A, RuledEntry<A>>, InputFault>, AllocError>
    requires right { A.is_right attachment sources.1 }
    requires sessions { (0 < vec_len sources.0) × (vec_len sources.0 < 2 ^ 32) }
    requires kept { kept ≤ length list.items }
    requires most { length list.items ≤ most }
    ensures { IfOk result (OpensJob kept most journal list.items sources.0.items sources.1
        sources.2) }
{
    let (sessions, base, before) = sources;
    let count = sessions.len() as u32;
    let (mut publisher, readers) = open(rt, alloc, base, attachment, list, count, most)?;
    match start_of(rt, kept, &mut publisher) {
        Ok(Ok(start)) => Ok(Ok(OpenJob {
            alloc,
            sessions,
            readers,
            publisher,
            journal,
            start,
            before,
        })),
        Ok(Err(fault)) => {
            publisher.close(rt);
            Ok(Err(fault))
        }
        Err(error) => {
            publisher.close(rt);
            Err(error)
        }
    }
}

/// Runs the sessions beside a publisher of what the journal keeps and of the job's refreshes, which
/// nobody sends.
fn run_kept<A: Attachment + Send + Sync, R: Threads + Wait + Sync, D: Disk + Send, G: Gate + Sync>(
    rt: &R,
    alloc: Global,
    gate: &G,
    disk: &mut D,
    journal: Journal,
    kept: Vec<Refresh>,
    attachment: A,
    sources: JobSources,
) -> Result<Played, AllocError>
    requires right { A.is_right attachment sources.base }
    requires runnable { IsRunnable sources }
    requires unsent { sources.senders.items ≡ [] }
    requires keepable { IsKeepable sources }
    requires reached { D.is_reached disk.old ≡ true }
    requires working { journal.is_shut ≡ false }
    requires short { journal.end ≤ 2 ^ 61 }
    requires stands { Stands IsSpelled (D.may_leave disk.old) (map spelling_of kept.items)
        journal.end }
    ensures played { IfOk result (PlaysKept kept.items (D.reads disk.new) (work_view sources)
        (job_sessions sources.sessions.items)) }
    ensures failed { IfOk result (λ played. IsPlayFault played
        → Rose (D.faults disk.old) (D.faults disk.new)) }
    ensures later { D.faults disk.old ≤ D.faults disk.new }
{
    let JobSources {
        keeps: _keeps,
        sessions,
        base,
        mut list,
        before,
        senders: _senders,
        journal: _journal,
    } = sources;
    let count = kept.len();
    let mut all = kept;
    all.append(&mut list)?;
    let most = all.len();
    match open_job(
        rt,
        alloc,
        count,
        most,
        journal,
        all,
        attachment,
        (sessions, base, before),
    )? {
        Ok(job) => play_over(rt, gate, disk, job),
        Err(fault) => Ok(Played::Refused(fault)),
    }
}

/// Runs the sessions beside a publisher of what the journal keeps and of the job's refreshes, some
/// of which may be sent. Each version carries what is attached to the base.
fn run_attached<
    A: Attachment + Send + Sync,
    R: Threads + Wait + Sync,
    D: Disk + Send,
    G: Gate + Sync,
>(
    rt: &R,
    alloc: Global,
    gate: &G,
    disk: &mut D,
    journal: Journal,
    kept: Vec<Refresh>,
    attachment: A,
    sources: JobSources,
) -> Result<Played, AllocError>
    requires right { A.is_right attachment sources.base }
    requires runnable { IsRunnable sources }
    requires keepable { IsKeepable sources }
    requires reached { D.is_reached disk.old ≡ true }
    requires working { journal.is_shut ≡ false }
    requires short { journal.end ≤ 2 ^ 61 }
    requires stands { Stands IsSpelled (D.may_leave disk.old) (map spelling_of kept.items)
        journal.end }
    ensures played { IfOk result (PlaysKept kept.items (D.reads disk.new) (work_view sources)
        (job_sessions sources.sessions.items)) }
    ensures failed { IfOk result (λ played. IsPlayFault played
        → Rose (D.faults disk.old) (D.faults disk.new)) }
    ensures later { D.faults disk.old ≤ D.faults disk.new }
{
    if sources.senders.is_empty() {
        run_kept(rt, alloc, gate, disk, journal, kept, attachment, sources)
    } else {
        run_kept_sent(rt, alloc, gate, disk, journal, kept, attachment, sources)
    }
}

/// The same with the groups of a run's plans.
fn run_grouped<P: Plans + Send + Sync, R: Threads + Wait + Sync, D: Disk + Send, G: Gate + Sync>(
    rt: &R,
    alloc: Global,
    gate: &G,
    disk: &mut D,
    journal: Journal,
    kept: Vec<Refresh>,
    groups: Kept,
    sources: JobSources,
) -> Result<Played, AllocError>
    requires groups { groups ≡ kept_rows P.plans sources.base }
    requires runnable { IsRunnable sources }
    requires keepable { IsKeepable sources }
    requires reached { D.is_reached disk.old ≡ true }
    requires working { journal.is_shut ≡ false }
    requires short { journal.end ≤ 2 ^ 61 }
    requires stands { Stands IsSpelled (D.may_leave disk.old) (map spelling_of kept.items)
        journal.end }
    ensures played { IfOk result (PlaysKept kept.items (D.reads disk.new) (work_view sources)
        (job_sessions sources.sessions.items)) }
    ensures failed { IfOk result (λ played. IsPlayFault played
        → Rose (D.faults disk.old) (D.faults disk.new)) }
    ensures later { D.faults disk.old ≤ D.faults disk.new }
{
    let attached: KeptOf<P> = KeptOf::new(groups);
    run_attached(rt, alloc, gate, disk, journal, kept, attached, sources)
}

/// Runs the sessions beside a publisher of what the journal keeps and of the job's refreshes. The
/// rows of the job's kept views are kept at each version; where it has none, nothing is.
fn run_reached<R: Threads + Wait + Sync, D: Disk + Send, G: Gate + Sync>(
    rt: &R,
    alloc: Global,
    gate: &G,
    disk: &mut D,
    journal: Journal,
    kept: Vec<Refresh>,
    sources: JobSources,
) -> Result<Played, AllocError>
    requires runnable { IsRunnable sources }
    requires keepable { IsKeepable sources }
    requires reached { D.is_reached disk.old ≡ true }
    requires working { journal.is_shut ≡ false }
    requires short { journal.end ≤ 2 ^ 61 }
    requires stands { Stands IsSpelled (D.may_leave disk.old) (map spelling_of kept.items)
        journal.end }
    ensures played { IfOk result (PlaysKept kept.items (D.reads disk.new) (work_view sources)
        (job_sessions sources.sessions.items)) }
    ensures failed { IfOk result (λ played. IsPlayFault played
        → Rose (D.faults disk.old) (D.faults disk.new)) }
    ensures later { D.faults disk.old ≤ D.faults disk.new }
{
    if sources.keeps.plans.is_empty() {
        return run_attached(rt, alloc, gate, disk, journal, kept, (), sources);
    }
    let groups = groups_of(alloc, sources.keeps.plans.as_slice(), &sources.base)?;
    run_grouped::<Brand, R, D, G>(rt, alloc, gate, disk, journal, kept, groups, sources)
}

/// Plays a job that keeps its accepted refreshes in the journal of that name: reaches its file,
/// publishes what it keeps, and runs the sessions beside the refreshes of the job.
///
/// Answers the text of the job, the fault of the journal, or that the disk failed.
pub fn play_kept<R: Threads + Wait + Sync, D: Disk + Send, G: Gate + Sync>(
    rt: &R,
    alloc: Global,
    gate: &G,
    disk: &mut D,
    name: &str,
    sources: JobSources,
) -> Result<Played, AllocError>
    requires runnable { IsRunnable sources }
    requires keepable { IsKeepable sources }
    ensures played { IfOk result (IsPlayed name.now (D.named disk.old) (D.reads disk.new)
        (work_view sources) (job_sessions sources.sessions.items)) }
    ensures failed { IfOk result (λ played. IsPlayFault played
        → Rose (D.faults disk.old) (D.faults disk.new)) }
    ensures later { D.faults disk.old ≤ D.faults disk.new }
{
    match reach_journal(alloc, disk, name)? {
        Reached::Journal(journal, kept) => {
            run_reached(rt, alloc, gate, disk, journal, kept, sources)
        }
        Reached::Refused(fault) => Ok(Played::Refused(fault)),
        Reached::DiskFault => Ok(Played::DiskFault),
    }
}
