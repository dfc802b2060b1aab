//! Queries and views, bound.
ghost use Rattle.sql_binder.specs.Binding as spec;
ghost use Rattle.sql_binder_steps.specs.Names.{statement_views};
ghost use Rattle.sql_binder_steps.specs.Steps.{Gives};

use crate::knot::query;
use sql_ast::{Block, Name, Query, WithQuery};
use sql_binder_steps::collected::{BoundTable, Collected};
use sql_binder_steps::lists::order_of;
use sql_binder_steps::names::{distinct_names, new_name, renamed_headers, share};
use sql_binder_steps::scope::Site;
use sql_binder_steps::{BindFault, StatementViews, View, Views};
use sql_bound_query::BoundQuery;
use sqlite_items::Items;
use std::alloc::Global;

/// A query that stands by itself, and how many FROM items it has.
fn counted_table(
    alloc: Global,
    q: &Block,
    views: &StatementViews<'_>,
) -> Result<(BoundTable, u32), BindFault>
    ensures { Gives (spec.counted_table q.now (statement_views views.now)) result }
{
    let site = Site {
        views,
        levels: &[],
        hidden: 0,
        takes_subqueries: true,
    };
    let mut state = Collected {
        items: 0,
        inputs: Items::new(alloc),
        aggregates: Items::new(alloc),
    };
    let t = query(alloc, &site, &mut state, q)?;
    Ok((t, state.items))
}

/// A view, over the views of a statement.
#[tactic(auto, unfolding(crate::specs::Binding::bound_view))]
fn named_view(
    alloc: Global,
    name: &Name,
    names: &[Name],
    query: &Block,
    views: &StatementViews<'_>,
) -> Result<View, BindFault>
    ensures { Gives (spec.bound_view name.now names.now query.now (statement_views views.now))
        result }
{
    distinct_names(names)?;
    let (t, items) = counted_table(alloc, query, views)?;
    let columns = renamed_headers(alloc, names, t.headers)?;
    Ok(View {
        name: share(name)?,
        columns,
        block: t.block,
        items,
        kept: None,
    })
}

/// The bound form of a view: its query, under the names of its column list, where one stands.
///
/// # Errors
///
/// `Refused`: first for equal names in the list, then for what the query is refused for, then for a
/// list of another length than the query's; `OutOfMemory`.
pub fn bind_view(
    alloc: Global,
    name: &Name,
    names: &[Name],
    query: &Block,
    views: &Views,
) -> Result<View, BindFault>
    ensures { Gives (spec.bound_view name.now names.now query.now views.now.all) result }
{
    let views = StatementViews {
        with_queries: &[],
        session: views.all.as_slice(),
    };
    named_view(alloc, name, names, query, &views)
}

/// The queries of WITH, each bound over those before it and the views of the session.
fn with_views(
    alloc: Global,
    queries: &[WithQuery],
    session: &[View],
) -> Result<Items<View>, BindFault>
    ensures { Gives (spec.with_views queries.now session.now) result }
{
    let mut done: Items<View> = Items::new(alloc);
    let mut left = queries;
    'queries: while let [q, rest @ ..] = left {
        new_name(&q.name, done.as_slice())?;
        let views = StatementViews {
            with_queries: done.as_slice(),
            session,
        };
        let view = named_view(alloc, &q.name, q.columns.as_slice(), &q.block, &views)?;
        done.push(view)?;
        left = rest;
    }
    Ok(done)
}

/// A query that is a statement, over its views.
fn bound_over(
    alloc: Global,
    query: &Query,
    views: &StatementViews<'_>,
) -> Result<BoundQuery, BindFault>
    ensures { Gives (spec.bound_over query.now (statement_views views.now)) result }
{
    let (t, _items) = counted_table(alloc, &query.block, views)?;
    let order = order_of(alloc, t.headers.as_slice(), query.order.as_slice())?;
    Ok(BoundQuery {
        block: t.block,
        order,
        limit: query.limit,
    })
}

/// The bound form of a query: each name stands for a column of the innermost query around it that
/// has one of the name, and each expression has a kind.
///
/// # Errors
///
/// `Refused` with the first refusal in the order of binding, those of the queries of WITH before
/// others, as the definition `bound_query` says; `OutOfMemory`.
#[tactic(auto, unfolding(crate::specs::Binding::bound_query))]
pub fn bind(alloc: Global, query: &Query, views: &Views) -> Result<BoundQuery, BindFault>
    ensures { Gives (spec.bound_query query.now views.now.all) result }
{
    let session = views.all.as_slice();
    let named = with_views(alloc, query.with_queries.as_slice(), session)?;
    let views = StatementViews {
        with_queries: named.as_slice(),
        session,
    };
    let bound = bound_over(alloc, query, &views)?;
    Ok(bound)
}
