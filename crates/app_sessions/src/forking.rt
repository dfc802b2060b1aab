//! The threads of a job: what is done before they start, and their run.
ghost use Rattle.std.specs.Prelude.{◌≡◌, ◌+◌, ◌<◌, ◌≤◌, ◌++◌, [], IfOk, IsErrOf, OnOk, length};
ghost use Rattle.std.specs.Prelude.{vec_len};
ghost use Rattle.base_io.specs.Outside.{Counts};
ghost use denote.Param.Send.{IsSync};
ghost use Rattle.store_state.specs.Versions.{accepted};
ghost use Rattle.store_snapshots.specs.Ruled.{list_fits, opening_of};
ghost use Rattle.store_versions.specs.Trials.{Trials};
ghost use Rattle.app_sessions.specs.Asked.{AllUnasked};
ghost use Rattle.app_sessions.specs.Gathered.{ArePrepared};
ghost use Rattle.app_sessions.specs.Orders.{RefreshOrder, later_by};
ghost use Rattle.app_sessions.specs.Reports.{HasTried, IsTold};
ghost use Rattle.app_sessions.specs.Workers.{AllHaveRun, AllReady, AreOfOpening};

use crate::publishing::{publish_first, publish_rest};
use crate::report::Report;
use crate::session::Session;
use crate::worker::{Worker, run_workers};
use crate::workers::{assign_sessions, make_workers};
use base_io::Gate;
use std::alloc::Global;
use std::sync::Wait;
use std::thread::{Threads, join_mut};
use store_snapshots::{Entry, Feed, FeedError, Publisher, Reader, RuledEntry};
use store_versions::Attachment;

/// A job on its way.
#[derive(Drop)]
pub struct JobRun<E: Entry + Drop> {
    /// What runs its sessions.
    pub workers: Vec<Worker<E>>,
    /// How many sessions it has.
    pub count: usize,
    /// What is told of its refreshes so far.
    pub report: Report,
    /// How many refreshes the publisher's list had when it began.
    pub listed: usize,
}

/// What is done before the fork: the first refreshes of the list are tried by turns of a feed that
/// tried none, the readers are told of them, and the sessions are assigned to them.
pub fn prepare<A: Attachment, F: Feed<Attached = A>, R: Wait>(
    rt: &R,
    alloc: Global,
    before: usize,
    sessions: Vec<Session>,
    readers: Vec<Reader<RuledEntry<A>>>,
    publisher: &mut Publisher<A>,
    feed: &mut F,
) -> Result<JobRun<RuledEntry<A>>, FeedError>
    requires unasked { AllUnasked sessions.items }
    requires readers { 0 < vec_len readers }
    requires opened { AreOfOpening opening_of publisher.old.version readers.items }
    requires shown { publisher.old.shown ≡ publisher.old.version }
    requires before { publisher.old.version.done + before ≤ length publisher.old.version.list }
    requires fits { F.fits feed.old publisher.old.version }
    requires fresh { F.tried feed.old ≡ [] }
    ensures workers { IfOk result (λ run. ArePrepared opening_of list_fits publisher.old.version
        (accepted publisher.old.version.base publisher.old.version.list
        (publisher.old.version.done + before)) sessions.items run.workers.items) }
    ensures sizes { IfOk result (λ run. (run.count ≡ length sessions.items)
        × (run.listed ≡ length publisher.old.version.list)) }
    ensures version { OnOk result (publisher.new.version
        ≡ later_by before publisher.old.version) }
    ensures fits { OnOk result (F.fits feed.new publisher.new.version) }
    ensures tried { OnOk result (HasTried publisher.old.version publisher.new
        (F.tried feed.new)) }
    ensures told { IfOk result (λ run. IsTold publisher.old.version (F.tried feed.new)
        run.report) }
    ensures source { F.source feed.new ≡ F.source feed.old }
    ensures failed { Counts (IsErrOf result FeedError.Failed)
        (F.faults feed.old) (F.faults feed.new) }
{
    let count = sessions.len();
    let listed = publisher.listed();
    let mut report = Report::new(alloc);
    publish_first(rt, before, publisher, &mut report, feed)?;
    let mut workers = make_workers(alloc, readers, publisher)?;
    assign_sessions(sessions, workers.as_mut_slice())?;
    Ok(JobRun {
        workers,
        count,
        report,
        listed,
    })
}

/// Runs all workers, each in a thread of its own, and beside them the publisher, and waits for all
/// of them.
pub fn fork<
    A: Attachment + Send + Sync,
    F: Feed<Attached = A> + Send,
    G: Gate + Sync,
    R: Threads + Wait + Sync,
>(
    rt: &R,
    gate: &G,
    publisher: &mut Publisher<A>,
    report: &mut Report,
    feed: &mut F,
    workers: &mut [Worker<RuledEntry<A>>],
) -> Result<(), FeedError>
    requires ready { AllReady opening_of list_fits workers.old }
    requires fits { F.fits feed.old publisher.old.version }
    requires room { report.old.count ≤ publisher.old.version.done }
    ensures workers { AllHaveRun opening_of list_fits workers.old workers.new }
    ensures fits { OnOk result (F.fits feed.new publisher.new.version) }
    ensures over { OnOk result (F.is_over feed.new publisher.new.version) }
    ensures done { OnOk result (publisher.new.version.done ≡ length publisher.new.version.list) }
    ensures tried { OnOk result ((start : Trials) (first : RefreshOrder)
        → HasTried start publisher.old (first ++ F.tried feed.old)
        → HasTried start publisher.new (first ++ F.tried feed.new)) }
    ensures told { OnOk result ((start : Trials) (first : RefreshOrder)
        → HasTried start publisher.old (first ++ F.tried feed.old)
        → IsTold start (first ++ F.tried feed.old) report.old
        → IsTold start (first ++ F.tried feed.new) report.new) }
    ensures source { F.source feed.new ≡ F.source feed.old }
    ensures failed { Counts (IsErrOf result FeedError.Failed)
        (F.faults feed.old) (F.faults feed.new) }
{
    let mut front = ||
        requires { IsSync R.row × IsSync G.row × IsSync A.row
            × AllReady opening_of list_fits workers.now }
        ensures { AllHaveRun opening_of list_fits workers.entry.now workers.exit.now }
    { run_workers(rt, gate, workers) };
    let mut back = || -> Result<(), FeedError>
        requires { F.fits feed.now publisher.now.version
            × (report.now.count ≤ publisher.now.version.done) }
        ensures fits { OnOk result (F.fits feed.exit.now publisher.exit.now.version) }
        ensures over { OnOk result (F.is_over feed.exit.now publisher.exit.now.version) }
        ensures done { OnOk result (publisher.exit.now.version.done
            ≡ length publisher.exit.now.version.list) }
        ensures tried { OnOk result ((start : Trials) (first : RefreshOrder)
            → HasTried start publisher.entry.now (first ++ F.tried feed.entry.now)
            → HasTried start publisher.exit.now (first ++ F.tried feed.exit.now)) }
        ensures told { OnOk result ((start : Trials) (first : RefreshOrder)
            → HasTried start publisher.entry.now (first ++ F.tried feed.entry.now)
            → IsTold start (first ++ F.tried feed.entry.now) report.entry.now
            → IsTold start (first ++ F.tried feed.exit.now) report.exit.now) }
        ensures source { F.source feed.exit.now ≡ F.source feed.entry.now }
        ensures failed { Counts (IsErrOf result FeedError.Failed)
            (F.faults feed.entry.now) (F.faults feed.exit.now) }
    { publish_rest(rt, gate, publisher, report, feed) };
    let (_, outcome) = join_mut(rt, &mut front, &mut back);
    outcome
}
