//! A job without a journal.
ghost use Rattle.std.specs.Prelude.{◌≡◌, ℕ, [], List, None, Option, IfOk};
ghost use Rattle.store_kept_views.specs.Kept.{kept};
ghost use Rattle.app_sessions.specs.Asked.{job_sessions};
ghost use Rattle.app_jobs.specs.JobTexts.{IsTextInOrder};
ghost use Rattle.app_jobs.specs.Sources.{IsKeepable, IsRunnable, work_view};

use crate::keeping::groups_of;
use crate::senders::run_with_senders;
use crate::sources::JobSources;
use app_sessions::{JobText, run_list_job};
use base_io::Gate;
use std::alloc::{AllocError, Global};
use std::marker::Brand;
use std::sync::Wait;
use std::thread::Threads;
use store_kept_views::{Kept, KeptOf, Plans};
use store_snapshots::open;
use store_versions::Attachment;

/// Runs the sessions beside a publisher of the refreshes, which nobody sends.
fn run_without_senders<A: Attachment + Send + Sync, R: Threads + Wait + Sync, G: Gate + Sync>(
    rt: &R,
    alloc: Global,
    gate: &G,
    attachment: A,
    sources: JobSources,
) -> Result<JobText, AllocError>
    requires right { A.is_right attachment sources.base }
    requires runnable { IsRunnable sources }
    requires unsent { sources.senders.items ≡ [] }
    requires plain { sources.journal ≡ None }
    ensures { (reads : Option (List ℕ)) → IfOk result (IsTextInOrder (work_view sources) reads
        (job_sessions sources.sessions.items)) }
{
    let JobSources {
        keeps: _keeps,
        sessions,
        base,
        list,
        before,
        senders: _senders,
        journal: _journal,
    } = sources;
    let most = list.len();
    let count = sessions.len() as u32;
    let (publisher, readers) = open(rt, alloc, base, attachment, list, count, most)?;
    run_list_job(rt, alloc, sessions, readers, publisher, before, gate)
}

/// Runs the sessions beside a publisher of the refreshes, some of which may be sent. Each version
/// carries what is attached to the base.
fn run_attached<A: Attachment + Send + Sync, R: Threads + Wait + Sync, G: Gate + Sync>(
    rt: &R,
    alloc: Global,
    gate: &G,
    attachment: A,
    sources: JobSources,
) -> Result<JobText, AllocError>
    requires right { A.is_right attachment sources.base }
    requires runnable { IsRunnable sources }
    requires keepable { IsKeepable sources }
    requires plain { sources.journal ≡ None }
    ensures { (reads : Option (List ℕ)) → IfOk result (IsTextInOrder (work_view sources) reads
        (job_sessions sources.sessions.items)) }
{
    if sources.senders.is_empty() {
        run_without_senders(rt, alloc, gate, attachment, sources)
    } else {
        run_with_senders(rt, alloc, gate, attachment, sources)
    }
}

/// The same with the groups of a run's plans.
fn run_grouped<P: Plans + Send + Sync, R: Threads + Wait + Sync, G: Gate + Sync>(
    rt: &R,
    alloc: Global,
    gate: &G,
    groups: Kept,
    sources: JobSources,
) -> Result<JobText, AllocError>
    requires groups { groups ≡ kept P.plans sources.base }
    requires runnable { IsRunnable sources }
    requires keepable { IsKeepable sources }
    requires plain { sources.journal ≡ None }
    ensures { (reads : Option (List ℕ)) → IfOk result (IsTextInOrder (work_view sources) reads
        (job_sessions sources.sessions.items)) }
{
    let attached: KeptOf<P> = KeptOf::new(groups);
    run_attached(rt, alloc, gate, attached, sources)
}

/// Runs the sessions beside a publisher of the refreshes, some of which may be sent. The rows of
/// the job's kept views are kept at each version; where it has none, nothing is.
pub fn run_sources<R: Threads + Wait + Sync, G: Gate + Sync>(
    rt: &R,
    alloc: Global,
    gate: &G,
    sources: JobSources,
) -> Result<JobText, AllocError>
    requires runnable { IsRunnable sources }
    requires keepable { IsKeepable sources }
    requires plain { sources.journal ≡ None }
    ensures { (reads : Option (List ℕ)) → IfOk result (IsTextInOrder (work_view sources) reads
        (job_sessions sources.sessions.items)) }
{
    if sources.keeps.plans.is_empty() {
        return run_attached(rt, alloc, gate, (), sources);
    }
    let groups = groups_of(alloc, sources.keeps.plans.as_slice(), &sources.base)?;
    run_grouped::<Brand, R, G>(rt, alloc, gate, groups, sources)
}
