//! From a bound query to its flat plan.
ghost use Rattle.std.specs.Prelude.{◌≡◌, List, IfOk};
ghost use Rattle.expr_scalar.specs.declared.kind.Kind.{Kind};
ghost use Rattle.sql_bound_query.specs.Typing.{IsWellTyped};
ghost use Rattle.sql_binder.specs.Binding.{bound_query};
ghost use Rattle.sql_binder_steps.specs.Steps.{Gives};
ghost use Rattle.plan_planner.specs.Planned.{IsPlanOf, Plans};

use crate::views::SessionViews;
use plan_algebra::{Builder, FlatPlan};
use plan_computed_keys::keyed;
use plan_dependent_tree::depend;
use plan_join_order::arrange;
use plan_unnesting::{Domain, lower};
use sql_ast::Query;
use sql_binder::bind;
use sql_binder_steps::BindFault;
use sql_bound_query::BoundQuery;
use std::alloc::{AllocError, Global};

/// A query that is a statement, bound over the views of its session.
///
/// # Errors
///
/// `Refused` exactly as binding is; `OutOfMemory`.
pub fn bind_query(
    alloc: Global,
    query: &Query,
    views: &SessionViews,
) -> Result<BoundQuery, BindFault>
    ensures bound { Gives (bound_query query.now views.now) result }
    ensures typed { IfOk result (λ bound. (kinds : List Kind) × IsWellTyped bound.block kinds) }
{
    let bound = bind(alloc, query, &views.views)?;
    Ok(bound)
}

/// The flat plan of a query that is a statement, over the views of its session.
///
/// # Errors
///
/// `Refused` exactly as binding is; `OutOfMemory`.
pub fn plan(alloc: Global, query: &Query, views: &SessionViews) -> Result<FlatPlan, BindFault>
    ensures { Plans (bound_query query.now views.now) result }
{
    let bound = bind_query(alloc, query, views)?;
    let plan = plan_bound(alloc, bound)?;
    Ok(plan)
}

/// The flat plan of a well-typed query: its dependent tree, with joins and conditions moved to
/// where they cost least and columns for computed keys, lowered to nodes none of which depends on
/// the rows of another.
pub fn plan_bound(alloc: Global, query: BoundQuery) -> Result<FlatPlan, AllocError>
    requires { (kinds : List Kind) × IsWellTyped query.block kinds }
    ensures { IfOk result (IsPlanOf query) }
{
    let tree = depend(alloc, &query)?;
    let arranged = arrange(alloc, 0, tree.get())?;
    let indexed = keyed(alloc, 0, arranged.get())?;
    let mut builder = Builder::new(alloc);
    let domain = Domain::one(alloc);
    lower(alloc, &mut builder, indexed.get(), domain)?;
    let BoundQuery { order, limit, .. } = query;
    let most = wide(limit);
    let plan = builder.finish(order, most);
    Ok(plan)
}

// A row limit as plans have it.
fn wide(limit: Option<u32>) -> Option<u64>
    ensures { result ≡ limit }
{
    match limit {
        Some(most) => Some(u64::from(most)),
        None => None,
    }
}
