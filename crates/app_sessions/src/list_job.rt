//! A job whose feed has each of its refreshes tried.
ghost use Rattle.std.specs.Prelude.{◌≡◌, ◌≢◌, ◌+◌, ◌<◌, ◌≤◌, ◌^◌, [], IfOk, IsErrOf, Err, length};
ghost use Rattle.std.specs.Prelude.{vec_len};
ghost use Rattle.base_io.specs.Outside.{Counts};
ghost use Rattle.store_snapshots.specs.Ruled.{opening_of};
ghost use Rattle.app_sessions.specs.Asked.{AllUnasked, job_sessions};
ghost use Rattle.app_sessions.specs.Jobs.{IsJobText, IsOrderText};
ghost use Rattle.app_sessions.specs.Orders.{EndsFeed, whole_order};
ghost use Rattle.app_sessions.specs.Workers.{AreOfOpening};
ghost use Rattle.app_sessions.specs.declared.job_error.JobError.TheVariants.{Failed, OutOfMemory};
ghost use Rattle.app_sessions.specs.declared.job_error.JobError.TheVariants.{TooFewRefreshes};

use crate::forking::prepare;
use crate::job::{JobSetup, run_beside};
use crate::job_error::JobError;
use crate::job_text::JobText;
use crate::session::Session;
use base_io::Gate;
use std::alloc::{AllocError, Global};
use std::sync::Wait;
use std::thread::Threads;
use store_snapshots::{Feed, ListFeed, Publisher, Reader, RuledEntry};
use store_versions::Attachment;

/// Runs sessions beside the publisher of a feed's refreshes, and gives their text. The feed has the
/// refreshes before the sessions tried too.
pub fn run_feed_job<
    A: Attachment + Send + Sync,
    F: Feed<Attached = A> + Send,
    G: Gate + Sync,
    R: Threads + Wait + Sync,
>(
    rt: &R,
    alloc: Global,
    gate: &G,
    setup: JobSetup<RuledEntry<A>>,
    publisher: &mut Publisher<A>,
    feed: &mut F,
) -> Result<JobText, JobError>
    requires sessions { (0 < vec_len setup.sessions) × (vec_len setup.sessions < 2 ^ 32) }
    requires unasked { AllUnasked setup.sessions.items }
    requires readers { 0 < vec_len setup.readers }
    requires opened { AreOfOpening opening_of publisher.old.version setup.readers.items }
    requires shown { publisher.old.shown ≡ publisher.old.version }
    requires most { setup.most ≡ publisher.old.version.most }
    requires before { publisher.old.version.done + setup.before
        ≤ length publisher.old.version.list }
    requires fits { F.fits feed.old publisher.old.version }
    requires fresh { F.tried feed.old ≡ [] }
    ensures text { IfOk result (IsOrderText publisher.old.version.base
        (whole_order publisher.old.version (F.tried feed.new))
        publisher.old.version.done setup.before (job_sessions setup.sessions.items)) }
    ensures many { IfOk result (λ _. length (whole_order publisher.old.version (F.tried feed.new))
        ≡ publisher.old.version.most) }
    ensures few { result ≡ Err TooFewRefreshes
        → length (whole_order publisher.old.version (F.tried feed.new))
        < publisher.old.version.most }
    ensures ended { result ≢ Err OutOfMemory → result ≢ Err Failed
        → EndsFeed (F.fits feed.new) (F.is_over feed.new) publisher.old.version
        (F.tried feed.new) }
    ensures source { F.source feed.new ≡ F.source feed.old }
    ensures failed { Counts (IsErrOf result Failed) (F.faults feed.old) (F.faults feed.new) }
{
    let JobSetup {
        sessions,
        readers,
        before,
        most,
    } = setup;
    let run = prepare(rt, alloc, before, sessions, readers, publisher, feed)?;
    run_beside(rt, alloc, gate, most, run, publisher, feed)
}

/// Runs sessions beside the publisher of its list's refreshes, of which none is done. The publisher
/// is closed, whatever happens. The only error is that memory ran out.
pub fn run_list_job<A: Attachment + Send + Sync, G: Gate + Sync, R: Threads + Wait + Sync>(
    rt: &R,
    alloc: Global,
    sessions: Vec<Session>,
    readers: Vec<Reader<RuledEntry<A>>>,
    mut publisher: Publisher<A>,
    before: usize,
    gate: &G,
) -> Result<JobText, AllocError>
    requires sessions { (0 < vec_len sessions) × (vec_len sessions < 2 ^ 32) }
    requires unasked { AllUnasked sessions.items }
    requires readers { 0 < vec_len readers }
    requires opened { AreOfOpening opening_of publisher.version readers.items }
    requires shown { publisher.shown ≡ publisher.version }
    requires whole { publisher.version.most ≡ length publisher.version.list }
    requires fresh { publisher.version.done ≡ 0 }
    requires before { before ≤ length publisher.version.list }
    ensures { IfOk result (IsJobText publisher.version.base publisher.version.list before
        (job_sessions sessions.items)) }
{
    let text = run_list(rt, alloc, before, gate, sessions, readers, &mut publisher);
    publisher.close(rt);
    text
}

/// The same with a publisher that stays open.
fn run_list<A: Attachment + Send + Sync, G: Gate + Sync, R: Threads + Wait + Sync>(
    rt: &R,
    alloc: Global,
    before: usize,
    gate: &G,
    sessions: Vec<Session>,
    readers: Vec<Reader<RuledEntry<A>>>,
    publisher: &mut Publisher<A>,
) -> Result<JobText, AllocError>
    requires sessions { (0 < vec_len sessions) × (vec_len sessions < 2 ^ 32) }
    requires unasked { AllUnasked sessions.items }
    requires readers { 0 < vec_len readers }
    requires opened { AreOfOpening opening_of publisher.old.version readers.items }
    requires shown { publisher.old.shown ≡ publisher.old.version }
    requires whole { publisher.old.version.most ≡ length publisher.old.version.list }
    requires fresh { publisher.old.version.done ≡ 0 }
    requires before { before ≤ length publisher.old.version.list }
    ensures { IfOk result (IsJobText publisher.old.version.base publisher.old.version.list before
        (job_sessions sessions.items)) }
{
    let mut feed = ListFeed::new(publisher)?;
    let setup = JobSetup {
        sessions,
        readers,
        before,
        most: publisher.listed(),
    };
    match run_feed_job(rt, alloc, gate, setup, publisher, &mut feed) {
        Ok(text) => Ok(text),
        Err(JobError::OutOfMemory) => Err(AllocError),
        Err(JobError::Failed) => unreachable!(),
        Err(JobError::TooFewRefreshes) => unreachable!(),
    }
}
