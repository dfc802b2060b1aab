//! A job: sessions that run beside a publisher.
ghost use Rattle.std.specs.Prelude.{◌≡◌, ◌≢◌, ◌+◌, ◌<◌, ◌≤◌, ◌^◌, ◌++◌, [], IfOk, Err, length};
ghost use Rattle.std.specs.Prelude.{IsErrOf, vec_len};
ghost use Rattle.base_io.specs.Outside.{Counts};
ghost use Rattle.store_snapshots.specs.Ruled.{opening_of};
ghost use Rattle.app_sessions.specs.Asked.{AllUnasked, job_sessions};
ghost use Rattle.app_sessions.specs.Jobs.{IsOrderText};
ghost use Rattle.app_sessions.specs.Orders.{EndsFeed, later_by, whole_order};
ghost use Rattle.app_sessions.specs.Starts.{HasStarted};
ghost use Rattle.app_sessions.specs.Workers.{AreOfOpening};
ghost use Rattle.app_sessions.specs.declared.job_error.JobError.TheVariants.{Failed, OutOfMemory};
ghost use Rattle.app_sessions.specs.declared.job_error.JobError.TheVariants.{TooFewRefreshes};

use crate::closing::{close_report, show_list, whole_text};
use crate::forking::{JobRun, fork, prepare};
use crate::job_error::JobError;
use crate::job_text::JobText;
use crate::meeting::meet_workers;
use crate::session::Session;
use base_io::Gate;
use std::alloc::Global;
use std::sync::Wait;
use std::thread::Threads;
use store_snapshots::{Entry, Feed, ListFeed, Publisher, Reader, RuledEntry};
use store_versions::Attachment;

/// What a job runs.
#[derive(Drop)]
pub struct JobSetup<E: Entry + Drop> {
    /// Its sessions.
    pub sessions: Vec<Session>,
    /// What they read by.
    pub readers: Vec<Reader<E>>,
    /// How many refreshes are tried before the sessions begin.
    pub before: usize,
    /// How many refreshes the publisher's list has in the end.
    pub most: usize,
}

/// Runs sessions beside the publisher of a feed's refreshes, and gives their text.
///
/// The first refreshes of the publisher's list are published, and all readers told of them, before
/// a session begins; the feed's are published while the sessions run, as they come. Each reader has
/// a thread of its own. Sessions are assigned to the readers in turn, and those of one reader run
/// one after another. All threads are joined, whatever happens, and the publisher stays open. The
/// text is that of the list of all that was tried, which no session knew when it was asked. Where
/// the feed ended before the list had as many refreshes as it was to have, there is no text.
pub fn run_job<
    A: Attachment + Send + Sync,
    F: Feed<Attached = A> + Send,
    G: Gate + Sync,
    R: Threads + Wait + Sync,
>(
    rt: &R,
    alloc: Global,
    gate: &G,
    setup: JobSetup<RuledEntry<A>>,
    publisher: &mut Publisher<A>,
    feed: &mut F,
) -> Result<JobText, JobError>
    requires sessions { (0 < vec_len setup.sessions) × (vec_len setup.sessions < 2 ^ 32) }
    requires unasked { AllUnasked setup.sessions.items }
    requires readers { 0 < vec_len setup.readers }
    requires opened { AreOfOpening opening_of publisher.old.version setup.readers.items }
    requires shown { publisher.old.shown ≡ publisher.old.version }
    requires before { publisher.old.version.done + setup.before
        ≤ length publisher.old.version.list }
    requires fits { F.fits feed.old (later_by setup.before publisher.old.version) }
    requires fresh { F.tried feed.old ≡ [] }
    requires most { setup.most ≡ publisher.old.version.most }
    ensures text { IfOk result (IsOrderText publisher.old.version.base
        (whole_order (later_by setup.before publisher.old.version) (F.tried feed.new))
        publisher.old.version.done setup.before (job_sessions setup.sessions.items)) }
    ensures many { IfOk result (λ _. length
        (whole_order (later_by setup.before publisher.old.version) (F.tried feed.new))
        ≡ publisher.old.version.most) }
    ensures few { result ≡ Err TooFewRefreshes → length
        (whole_order (later_by setup.before publisher.old.version) (F.tried feed.new))
        < publisher.old.version.most }
    ensures ended { result ≢ Err OutOfMemory → result ≢ Err Failed
        → EndsFeed (F.fits feed.new) (F.is_over feed.new)
        (later_by setup.before publisher.old.version) (F.tried feed.new) }
    ensures source { F.source feed.new ≡ F.source feed.old }
    ensures failed { Counts (IsErrOf result Failed) (F.faults feed.old) (F.faults feed.new) }
{
    let JobSetup {
        sessions,
        readers,
        before,
        most,
    } = setup;
    let mut first = ListFeed::new(publisher)?;
    let run = prepare(rt, alloc, before, sessions, readers, publisher, &mut first)?;
    run_beside(rt, alloc, gate, most, run, publisher, feed)
}

/// Runs a job's sessions beside the publisher of a feed's refreshes, and gives the job's text.
pub(crate) fn run_beside<
    A: Attachment + Send + Sync,
    F: Feed<Attached = A> + Send,
    G: Gate + Sync,
    R: Threads + Wait + Sync,
>(
    rt: &R,
    alloc: Global,
    gate: &G,
    most: usize,
    run: JobRun<RuledEntry<A>>,
    publisher: &mut Publisher<A>,
    feed: &mut F,
) -> Result<JobText, JobError>
    requires started { HasStarted run publisher.old (F.tried feed.old) }
    requires fits { F.fits feed.old publisher.old.version }
    requires most { most ≡ publisher.old.version.most }
    ensures text { (begun : HasStarted run publisher.old (F.tried feed.old)) → IfOk result
        (IsOrderText begun.start.base (whole_order begun.start (begun.first ++ F.tried feed.new))
        begun.start.done begun.before (job_sessions begun.sessions)) }
    ensures many { (begun : HasStarted run publisher.old (F.tried feed.old)) → IfOk result
        (λ _. length (whole_order begun.start (begun.first ++ F.tried feed.new)) ≡ most) }
    ensures few { (begun : HasStarted run publisher.old (F.tried feed.old))
        → result ≡ Err TooFewRefreshes
        → length (whole_order begun.start (begun.first ++ F.tried feed.new)) < most }
    ensures ended { (begun : HasStarted run publisher.old (F.tried feed.old))
        → result ≢ Err OutOfMemory → result ≢ Err Failed
        → EndsFeed (F.fits feed.new) (F.is_over feed.new)
        begun.start (begun.first ++ F.tried feed.new) }
    ensures source { F.source feed.new ≡ F.source feed.old }
    ensures failed { Counts (IsErrOf result Failed) (F.faults feed.old) (F.faults feed.new) }
{
    let JobRun {
        mut workers,
        count,
        mut report,
        listed,
    } = run;
    fork(
        rt,
        gate,
        publisher,
        &mut report,
        feed,
        workers.as_mut_slice(),
    )?;
    if publisher.listed() < most {
        return Err(JobError::TooFewRefreshes);
    }
    show_list(rt, listed, publisher)?;
    meet_workers(rt, publisher, workers.as_mut_slice())?;
    close_report(publisher, &mut report)?;
    let text = whole_text(alloc, workers.as_slice(), count, &report)?;
    Ok(text)
}
