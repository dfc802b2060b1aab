//! What is shown of a statement.
ghost use Rattle.std.specs.Prelude.{◌≡◌, IfOk, OnOk};
ghost use Rattle.sql_binder.specs.Binding.{bound_query};
ghost use Rattle.app_sessions.specs.Views.{views_after};
ghost use Rattle.app_show_plan.specs.Shown.{IsOfView, ShowsOutcome, ShowsQuery, ShowsStatement};
ghost use Rattle.app_show_plan.specs.Shown.{is_accepted};

use crate::query_plan::{QueryPlan, query_plan};
use app_sessions::{Outcome, drop_view, make_view, run_outcome};
use base_refusals::Refusal;
use plan_algebra::Tables;
use plan_planner::SessionViews;
use sql_ast::{Query, Statement};
use sql_binder_steps::BindFault;
use std::alloc::{AllocError, Global};
use std::thread::Threads;
use std::time::Clock;

/// What is shown of a statement.
pub enum StatementPlan {
    /// A query, with its forms and its plan.
    Query(QueryPlan),
    /// A view that was made or dropped.
    Done,
    /// A refresh; it isn't tried.
    Refresh,
    /// The statement is refused.
    Refused(Refusal),
}

// By hand, as that of `QueryPlan`.
impl Drop for StatementPlan {
    #[inline]
    fn drop(self) {
        match self {
            StatementPlan::Query(plan) => drop(plan),
            StatementPlan::Done => {}
            StatementPlan::Refresh => {}
            StatementPlan::Refused(_) => {}
        }
    }
}

impl StatementPlan {
    /// Whether the statement isn't refused.
    pub fn is_accepted(&self) -> bool
        ensures { result ≡ is_accepted self.now }
    {
        match self {
            StatementPlan::Query(_) | StatementPlan::Done | StatementPlan::Refresh => true,
            StatementPlan::Refused(_) => false,
        }
    }
}

/// What is shown of a query: its plan, or the refusal of binding.
fn shown_query<R: Threads + Sync + Clock, T: Tables>(
    rt: &R,
    alloc: Global,
    query: &Query,
    views: &SessionViews,
    tables: Option<&T>,
) -> Result<StatementPlan, AllocError>
    ensures { IfOk result (ShowsQuery (bound_query query.now views.now)) }
{
    match query_plan(rt, alloc, query, views, tables) {
        Ok(plan) => Ok(StatementPlan::Query(plan)),
        Err(BindFault::Refused(why)) => Ok(StatementPlan::Refused(Refusal::Bind(why))),
        Err(BindFault::OutOfMemory) => Err(AllocError),
    }
}

/// What is shown of a statement that is done or refused.
fn shown_outcome(outcome: Outcome) -> StatementPlan
    requires { IsOfView outcome }
    ensures { ShowsOutcome outcome result }
{
    match &outcome {
        Outcome::Done => StatementPlan::Done,
        Outcome::Refused(why) => StatementPlan::Refused(*why),
        Outcome::Rows(_) | Outcome::Accepted(_) | Outcome::VersionRefused(_) => unreachable!(),
    }
}

/// What is shown of a statement over these views, to which it does what it says: of a query a plan
/// of it, or the refusal of binding.
#[tactic(auto, using(crate::proofs::ViewOutcomes::of_made, crate::proofs::ViewOutcomes::of_dropped, crate::proofs::ViewOutcomes::of_run))]
pub fn statement_plan<R: Threads + Sync + Clock, T: Tables>(
    rt: &R,
    alloc: Global,
    statement: &Statement,
    views: &mut SessionViews,
    tables: Option<&T>,
) -> Result<StatementPlan, AllocError>
    ensures shown { IfOk result (ShowsStatement statement.now views.old) }
    ensures views { OnOk result (views.new ≡ views_after views.old statement.now) }
{
    match statement {
        Statement::Query(query) => shown_query(rt, alloc, query, views, tables),
        Statement::CreateView(name, names, query) => {
            let outcome = make_view(alloc, views, name, names.as_slice(), query)?;
            Ok(shown_outcome(outcome))
        }
        Statement::DropView(name) => Ok(shown_outcome(drop_view(views, name))),
        Statement::Refresh(_, _) => Ok(StatementPlan::Refresh),
        Statement::Run(number, values) => {
            let outcome = run_outcome(alloc, *number, values.as_slice())?;
            Ok(shown_outcome(outcome))
        }
    }
}
