//! The answer of a query.
ghost use Rattle.std.specs.Prelude.{◌≡◌, ◌+◌, ◌<◌, [], IfOk, IsTrue, OnOk};
ghost use Rattle.sql_bound_query.specs.Answer.{answer};
ghost use Rattle.plan_kept_queries.specs.Scans.{reads};
ghost use Rattle.sql_bound_query.specs.Typing.{StateIsOf};
ghost use Rattle.base_order_limit.specs.Answers.{finished};
ghost use Rattle.sql_bound_query.specs.declared.query.BoundQuery.{BoundQuery};
ghost use Rattle.store_versions.specs.Trials.{tables_of, version_of};
ghost use Rattle.sql_binder.specs.Binding.{bound_query};
ghost use Rattle.app_sessions.specs.Outcomes.{answered, bound_outcome, is_printable, named_outcome};
ghost use Rattle.app_sessions.specs.Outcomes.{bound_reads, named_reads, query_outcome};
ghost use Rattle.app_sessions.specs.Versions.{refused_beside, states_of};
ghost use Rattle.plan_planner.specs.Planned.{IsPlanOf};

use crate::outcome::{Outcome, kind_of_fault};
use app_result_text::VersionRefusal;
use base_columns::Bag;
use base_refusals::Refusal;
use base_schema::TableName;
use exec_flat_plan::run;
use exec_ordered_rows::finish;
use plan_algebra::{FlatPlan, Steps, Tables};
use plan_planner::{SessionViews, plan};
use sql_ast::Query;
use sql_binder_steps::BindFault;
use std::alloc::{AllocError, Global};
use std::marker::Brand;
use std::sync::ledger::{Blank, Ledger};
use std::thread::Threads;
use store_snapshots::Snapshot;
use store_versions::{Attachment, VersionError};

/// The rows of a plan in its order up to its limit, or their least fault.
fn finished_outcome(alloc: Global, plan: &FlatPlan, bag: &Bag) -> Result<Outcome, AllocError>
    ensures outcome { IfOk result (λ o. o
        ≡ answered (finished plan.now.order plan.now.limit bag.now.rows)) }
    ensures printable { IfOk result (λ o. IsTrue (is_printable o)) }
{
    match finish(alloc, bag, plan.order.as_slice(), plan.limit)? {
        Ok(rows) => Ok(Outcome::Rows(rows)),
        Err(fault) => Ok(Outcome::Refused(Refusal::Fault(kind_of_fault(fault)))),
    }
}

/// The rows of a version's tables are of their kinds: `Tables` says so.
fn has_kinds<A: Attachment>(snapshot: &Snapshot<A>)
    ensures { StateIsOf (tables_of snapshot.now) }
{
    let _count = snapshot.count(TableName::Region);
}

/// The answer of the query of a plan over a version's tables. Each row that is read is a step.
fn plan_outcome<R: Threads + Sync, A: Attachment, L: Ledger>(
    rt: &R,
    alloc: Global,
    plan: &FlatPlan,
    snapshot: &Snapshot<A>,
    steps: &mut Steps<L>,
) -> Result<Outcome, AllocError>
    ensures outcome { (q : BoundQuery) → IsPlanOf q plan.now
        → IfOk result (λ o. o ≡ answered (answer q (tables_of snapshot.now))) }
    ensures printable { IfOk result (λ o. IsTrue (is_printable o)) }
    ensures steps { (q : BoundQuery) → IsPlanOf q plan.now
        → OnOk result (steps.new ≡ steps.old + reads q.block (tables_of snapshot.now)) }
{
    has_kinds(snapshot);
    let bag = run(rt, alloc, plan, snapshot, steps)?;
    let outcome = finished_outcome(alloc, plan, &bag)?;
    Ok(outcome)
}

/// The answer of the query of a plan over the version that it names, or why it is not asked over
/// that. Then no row is read.
fn named_outcome<R: Threads + Sync, A: Attachment, L: Ledger>(
    rt: &R,
    alloc: Global,
    plan: &FlatPlan,
    snapshot: &Snapshot<A>,
    named: u64,
    steps: &mut Steps<L>,
) -> Result<Outcome, AllocError>
    ensures outcome { (q : BoundQuery) → IsPlanOf q plan.now → IfOk result (λ o. o
        ≡ named_outcome (refused_beside (version_of snapshot.now) named) q
        (states_of snapshot.now named)) }
    ensures printable { IfOk result (λ o. IsTrue (is_printable o)) }
    ensures steps { (q : BoundQuery) → IsPlanOf q plan.now → OnOk result (steps.new
        ≡ steps.old + named_reads (refused_beside (version_of snapshot.now) named) q
        (states_of snapshot.now named)) }
{
    match snapshot.at(alloc, named) {
        Ok(older) => plan_outcome(rt, alloc, plan, &older, steps),
        Err(VersionError::Unknown) => Ok(Outcome::VersionRefused(VersionRefusal::Unknown(named))),
        Err(VersionError::Gone) => Ok(Outcome::VersionRefused(VersionRefusal::Gone(named))),
        Err(VersionError::OutOfMemory) => Err(AllocError),
    }
}

/// What comes of the query of a plan that begins over a version and names one or none.
fn bound_outcome<R: Threads + Sync, A: Attachment, L: Ledger>(
    rt: &R,
    alloc: Global,
    plan: &FlatPlan,
    snapshot: &Snapshot<A>,
    named: Option<u32>,
    steps: &mut Steps<L>,
) -> Result<Outcome, AllocError>
    ensures outcome { (q : BoundQuery) → IsPlanOf q plan.now → IfOk result (λ o. o
        ≡ bound_outcome (version_of snapshot.now) (states_of snapshot.now) named q) }
    ensures printable { IfOk result (λ o. IsTrue (is_printable o)) }
    ensures steps { (q : BoundQuery) → IsPlanOf q plan.now → OnOk result (steps.new
        ≡ steps.old + bound_reads (version_of snapshot.now) (states_of snapshot.now) named q) }
{
    match named {
        Some(named) => named_outcome(rt, alloc, plan, snapshot, named as u64, steps),
        None => plan_outcome(rt, alloc, plan, snapshot, steps),
    }
}

/// `bound_outcome` with steps that have a ledger of their own.
fn counted_outcome<R: Threads + Sync, A: Attachment, L: Ledger>(
    rt: &R,
    alloc: Global,
    plan: &FlatPlan,
    snapshot: &Snapshot<A>,
    named: Option<u32>,
    blank: Blank,
) -> Result<Outcome, AllocError>
    requires name { blank.name ≡ L.name }
    requires parts { blank.parts ≡ L.parts }
    requires some { 0 < blank.parts }
    ensures outcome { (q : BoundQuery) → IsPlanOf q plan.now → IfOk result (λ o. o
        ≡ bound_outcome (version_of snapshot.now) (states_of snapshot.now) named q) }
    ensures printable { IfOk result (λ o. IsTrue (is_printable o)) }
{
    let mut steps: Steps<L> = Steps::new(blank);
    let outcome = bound_outcome(rt, alloc, plan, snapshot, named, &mut steps)?;
    Ok(outcome)
}

/// What comes of a query that begins over a version: its answer over that one or over the one that
/// it names, or why it is refused.
pub(crate) fn query_outcome<R: Threads + Sync, A: Attachment>(
    rt: &R,
    alloc: Global,
    query: &Query,
    views: &SessionViews,
    snapshot: &Snapshot<A>,
) -> Result<Outcome, AllocError>
    ensures outcome { IfOk result (λ o. o
        ≡ query_outcome (version_of snapshot.now) (states_of snapshot.now) query.now.version
        (bound_query query.now views.now)) }
    ensures printable { IfOk result (λ o. IsTrue (is_printable o)) }
{
    match plan(alloc, query, views) {
        Ok(plan) => {
            let named = query.version;
            let blank = Blank::new(1);
            let outcome = counted_outcome::<R, A, Brand>(rt, alloc, &plan, snapshot, named, blank)?;
            Ok(outcome)
        }
        Err(BindFault::Refused(why)) => Ok(Outcome::Refused(Refusal::Bind(why))),
        Err(BindFault::OutOfMemory) => Err(AllocError),
    }
}
