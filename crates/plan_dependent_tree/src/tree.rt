//! The tree of each part of a query.
ghost use Rattle.std.specs.Prelude.{◌≡◌, ◌+◌, [], length, map, IfOk};
ghost use Rattle.sql_bound_query.specs.Typing.{block_kinds, from_kinds};
ghost use Rattle.plan_kept_queries.specs.Scans.{derived_tables, tables, tables_of_source};
ghost use Rattle.plan_kept_queries.specs.Scans.{tables_of_input};
ghost use Rattle.plan_kept_queries.specs.Scans.{tables_of_expr, tables_of_aggregate, joined_tables};
ghost use Rattle.plan_dependent_nodes.specs.FromGrowth.{IsSourceTree, IsRightSource, IsKept};
ghost use Rattle.plan_dependent_nodes.specs.FromGrowth.{KeepsRight};
ghost use Rattle.plan_dependent_nodes.specs.Growth.{from_of, block_of, closed_of, IsTree};
ghost use Rattle.plan_dependent_nodes.specs.Growth.{IsSubquery};
ghost use Rattle.plan_dependent_nodes.specs.Growth.{Attaches, InputAt, InputsAt, ExprAt, ListAt};
ghost use Rattle.plan_dependent_nodes.specs.Growth.{AggregateAt, AggregatesAt, SameFunction};
ghost use Rattle.plan_dependent_nodes.specs.Growth.{SameFunctions};
ghost use Rattle.plan_dependent_nodes.specs.Supplied.{AggregateIsSupplied, AggregatesAreSupplied};
ghost use Rattle.plan_dependent_nodes.specs.Supplied.{ExprIsSupplied, InputIsSupplied, IsWidthOf};
ghost use Rattle.plan_dependent_nodes.specs.Supplied.{InputsAreSupplied, ListIsSupplied};
ghost use Rattle.plan_dependent_nodes.specs.Supplied.{QueryIsSupplied, FromIsSupplied};
ghost use Rattle.plan_dependent_nodes.specs.Supplied.{SourceIsSupplied, IsSourceWidth};
ghost use Rattle.plan_dependent_nodes.specs.Supplied.{SubqueryIsSupplied};

use crate::kept_domain::{KeptDomain, kept_domain};
use crate::outer::{outer_columns, source_columns};
use crate::sets::combined;
use crate::so_far::so_far_places;
use plan_algebra::{Aggregate, DepTree, Side};
use plan_dependent_nodes::{
    Attached, Counted, Grown, Listed, OuterColumn, Placed, Read, Right, RightRows, Rows, Sight,
    SourceSight, Summed, always, applied, contained, crossed, depending, distinct, existing,
    grouped, grown_from, kept_rows, key_places, lateral_columns, outer_condition, outer_joined,
    outer_places, over_places, place_of, projected, right_places, selected, table_rows, trimmed,
    valued,
};
use sql_bound_query::{BoundAggregate, BoundBlock, BoundExpr, BoundSource, Input};
use sqlite_items::{Boxed, Items};
use std::alloc::{AllocError, Global};

// The rows of a query's block under the rows around it.
#[cycle(depend)]
pub(crate) fn block(
    alloc: Global,
    q: &BoundBlock,
    outer: &[OuterColumn],
    start: u32,
) -> Result<Rows, AllocError>
    ensures tree { IfOk result (λ r. QueryIsSupplied q.now outer.now
        → IsTree (tables q.now) (block_of q.now) outer.now start r.tree r.width) }
    ensures width { IfOk result (λ r. IsWidthOf (block_kinds q.now) r.width) }
{
    match q {
        BoundBlock::Plain(from, condition, list) => {
            let rows = from_rows(alloc, from.get(), outer, start)?;
            let width = rows.width;
            let sight = Sight {
                outer,
                start,
                width,
            };
            let grown = grown_from(rows, start)?;
            let condition = attach_expr(alloc, condition, &sight, grown)?;
            let grown = selected(alloc, condition)?;
            let listed = attach_list(alloc, list.as_slice(), &sight, grown)?;
            let rows = projected(alloc, listed)?;
            Ok(rows)
        }
        BoundBlock::Grouped(from, condition, keys, aggregates, having, list) => {
            let rows = from_rows(alloc, from.get(), outer, start)?;
            let width = rows.width;
            let sight = Sight {
                outer,
                start,
                width,
            };
            let grown = grown_from(rows, start)?;
            let condition = attach_expr(alloc, condition, &sight, grown)?;
            let grown = selected(alloc, condition)?;
            let by = key_places(alloc, &sight, keys.as_slice())?;
            let summed = attach_aggregates(alloc, aggregates.as_slice(), &sight, grown)?;
            let groups = grouped(alloc, by, summed)?;
            let width = groups.width;
            let sight = Sight {
                outer,
                start,
                width,
            };
            let grown = grown_from(groups, start)?;
            let having = attach_expr(alloc, having, &sight, grown)?;
            let grown = selected(alloc, having)?;
            let listed = attach_list(alloc, list.as_slice(), &sight, grown)?;
            let rows = projected(alloc, listed)?;
            Ok(rows)
        }
        BoundBlock::Distinct(q) => {
            let rows = block(alloc, q.get(), outer, start)?;
            let rows = distinct(alloc, rows)?;
            Ok(rows)
        }
        BoundBlock::Set(a, b, columns, operation) => {
            let left = block(alloc, a.get(), outer, start)?;
            let right = block(alloc, b.get(), outer, start)?;
            let rows = combined(alloc, left, right, columns.as_slice(), *operation, start)?;
            Ok(rows)
        }
    }
}

// FROM, which begins with a row so far of no columns.
#[cycle(depend)]
fn from_rows(
    alloc: Global,
    s: &BoundSource,
    outer: &[OuterColumn],
    start: u32,
) -> Result<Rows, AllocError>
    ensures tree { IfOk result (λ r. FromIsSupplied s.now outer.now
        → IsTree (tables_of_source s.now) (from_of s.now) outer.now start r.tree r.width) }
    ensures width { IfOk result (λ r. IsWidthOf (from_kinds s.now []) r.width) }
{
    let sight = SourceSight {
        outer,
        so_far: &[],
        before: 0,
        start,
    };
    let rows = source(alloc, s, &sight)?;
    Ok(rows)
}

// An item of FROM.
#[cycle(depend)]
fn source(alloc: Global, s: &BoundSource, sight: &SourceSight) -> Result<Rows, AllocError>
    ensures tree { IfOk result (λ r. SourceIsSupplied s.now sight.now.outer.now sight.now.so_far.now
        sight.now.before sight.now.before
        → IsSourceTree s.now sight.now.outer.now sight.now.so_far.now sight.now.before
        sight.now.start r.tree r.width) }
    ensures width { IfOk result (λ r. IsSourceWidth s.now r.width) }
{
    match s {
        BoundSource::Table(table) => {
            let rows = table_rows(alloc, *table)?;
            Ok(rows)
        }
        BoundSource::Derived(kept, q) => {
            let rows = derived(alloc, *kept, q.get(), sight.start)?;
            Ok(rows)
        }
        BoundSource::Lateral(q) => {
            let outer = lateral_columns(alloc, sight)?;
            let rows = block(alloc, q.get(), outer.as_slice(), sight.start)?;
            Ok(rows)
        }
        BoundSource::Cross(a, b) => {
            let left = source(alloc, a.get(), sight)?;
            let right = right_source(alloc, b.get(), sight, left.width)?;
            let rows = crossed(alloc, left, right)?;
            Ok(rows)
        }
        BoundSource::Inner(a, b, on) => {
            let left = source(alloc, a.get(), sight)?;
            let right = right_source(alloc, b.get(), sight, left.width)?;
            let rows = crossed(alloc, left, right)?;
            let rows = kept(alloc, rows, on, sight)?;
            Ok(rows)
        }
        BoundSource::Outer(a, b, nulls, on) => {
            let left = source(alloc, a.get(), sight)?;
            match outer_condition(alloc, on, sight, left.width, *nulls)? {
                Some(condition) => {
                    let right = right_source(alloc, b.get(), sight, left.width)?;
                    let rows = outer_joined(alloc, left, right, *nulls, condition)?;
                    Ok(rows)
                }
                None => {
                    let domain = kept_domain(alloc, b.get(), on, sight, left.width)?;
                    let rows = source(alloc, b.get(), &domain.sight())?;
                    let right = kept_right(alloc, rows, *nulls, on, domain, left.width)?;
                    let condition = always(alloc)?;
                    let rows = outer_joined(alloc, left, right, *nulls, condition)?;
                    Ok(rows)
                }
            }
        }
    }
}

// A derived table, which is the kept view of a number or none.
#[cycle(depend)]
fn derived(alloc: Global, kept: Option<u32>, q: &BoundBlock, start: u32) -> Result<Rows, AllocError>
    ensures tree { IfOk result (λ r. QueryIsSupplied q.now []
        → IsTree (derived_tables kept q.now (tables q.now)) (closed_of q.now) [] start r.tree
        r.width) }
    ensures width { IfOk result (λ r. IsWidthOf (block_kinds q.now) r.width) }
{
    match kept {
        None => {
            let rows = block(alloc, q, &[], start)?;
            Ok(rows)
        }
        Some(number) => match kept_rows(alloc, number, q)? {
            Some(rows) => Ok(rows),
            None => {
                let rows = block(alloc, q, &[], start)?;
                Ok(rows)
            }
        },
    }
}

// The rows that ON keeps.
#[cycle(depend)]
fn kept(alloc: Global, rows: Rows, on: &BoundExpr, sight: &SourceSight) -> Result<Rows, AllocError>
    ensures tree { IfOk result (λ r. ExprIsSupplied on.now sight.now.outer.now rows.width
        → IsKept on.now sight.now.outer.now sight.now.so_far.now sight.now.start rows.tree
        rows.width r.tree) }
    ensures width { IfOk result (λ r. r.width ≡ rows.width) }
{
    let start = sight.start;
    let width = rows.width;
    let sight = Sight {
        outer: sight.outer,
        start,
        width,
    };
    let grown = grown_from(rows, start)?;
    let on = attach_expr(alloc, on, &sight, grown)?;
    let grown = selected(alloc, on)?;
    let rows = trimmed(alloc, grown, start, width)?;
    Ok(rows)
}

// A source to the right of a left row of `width` columns. Where it reads nothing of any row it has
// no domain; where it reads the row so far, its domain is just what it reads.
#[cycle(depend)]
fn right_source(
    alloc: Global,
    s: &BoundSource,
    sight: &SourceSight,
    width: u32,
) -> Result<RightRows, AllocError>
    ensures tree { IfOk result (λ r. SourceIsSupplied s.now sight.now.outer.now sight.now.so_far.now
        sight.now.before (sight.now.before + width)
        → IsRightSource s.now sight.now.outer.now sight.now.so_far.now sight.now.before
        sight.now.start width r.rows.tree r.side r.rows.width) }
    ensures width { IfOk result (λ r. IsSourceWidth s.now r.rows.width) }
{
    let before = sight.before.checked_add(width).ok_or(AllocError)?;
    let around = source_columns(alloc, s)?;
    let nearest = so_far_places(alloc, s)?;
    let outer = around.as_slice();
    let so_far = nearest.as_slice();
    if !so_far.is_empty() {
        let columns = right_places(alloc, sight, outer, so_far)?;
        let start = u32::try_from(columns.len()).map_err(|_| AllocError)?;
        let own = SourceSight {
            outer,
            so_far,
            before,
            start,
        };
        let rows = source(alloc, s, &own)?;
        let side = Side::Dependent(columns);
        Ok(RightRows { rows, side })
    } else if !outer.is_empty() {
        let own = SourceSight {
            outer: sight.outer,
            so_far: &[],
            before,
            start: sight.start,
        };
        let rows = source(alloc, s, &own)?;
        let side = Side::Shared;
        Ok(RightRows { rows, side })
    } else {
        let own = SourceSight {
            outer: &[],
            so_far: &[],
            before,
            start: 0,
        };
        let rows = source(alloc, s, &own)?;
        let side = Side::Closed;
        Ok(RightRows { rows, side })
    }
}

// Rows of `nulls` columns to the right of a left row of `width` columns, of which ON keeps some:
// over
// the domain of what both read, and then the left row.
#[cycle(depend)]
fn kept_right(
    alloc: Global,
    rows: Rows,
    nulls: u32,
    on: &BoundExpr,
    domain: KeptDomain,
    width: u32,
) -> Result<RightRows, AllocError>
    ensures { IfOk result (λ r. ExprIsSupplied on.now domain.outer (width + nulls)
        → rows.width ≡ nulls
        → KeepsRight on.now domain.outer domain.so_far domain.columns domain.begin domain.start
        width
        rows.tree nulls r.rows.tree r.side) }
{
    let KeptDomain {
        outer,
        columns,
        begin,
        start,
        ..
    } = domain;
    let joined = width.checked_add(nulls).ok_or(AllocError)?;
    let sight = Sight {
        outer: outer.as_slice(),
        start: begin,
        width: joined,
    };
    let grown = grown_from(rows, start)?;
    let on = attach_expr(alloc, on, &sight, grown)?;
    let grown = selected(alloc, on)?;
    let rows = trimmed(alloc, grown, start, nulls)?;
    let side = Side::Dependent(columns);
    Ok(RightRows { rows, side })
}

// A subquery, over the domain of the columns of the rows around that it reads.
#[cycle(depend)]
fn subquery(alloc: Global, q: &Boxed<BoundBlock>, sight: &Sight) -> Result<Right, AllocError>
    ensures { IfOk result (λ r. SubqueryIsSupplied q.now sight.now.outer.now sight.now.width
        → IsSubquery q.now sight.now.outer.now sight.now.start sight.now.width r.tree r.side) }
{
    let outer = outer_columns(alloc, q.get())?;
    let columns = outer_places(alloc, sight, outer.as_slice())?;
    let start = u32::try_from(outer.len()).map_err(|_| AllocError)?;
    let rows = block(alloc, q.get(), outer.as_slice(), start)?;
    let right = depending(rows, columns);
    Ok(right)
}

#[cycle(depend)]
fn attach_input(
    alloc: Global,
    input: &Input,
    sight: &Sight,
    grown: Grown,
) -> Result<Attached, AllocError>
    ensures { IfOk result (λ a. InputIsSupplied input.now sight.now.outer.now sight.now.width
        → Attaches sight.now.outer.now sight.now.start sight.now.width (tables_of_input input.now)
        (InputAt input.now a.column)
        grown.tree grown.end a.grown.tree a.grown.end) }
{
    match input {
        Input::Column(level, place) => {
            let column = place_of(sight, *level, *place)?;
            Ok(Attached { grown, column })
        }
        Input::Exists(q) => {
            let right = subquery(alloc, q, sight)?;
            let attached = existing(alloc, grown, right)?;
            Ok(attached)
        }
        Input::Any(comparison, left, q) => {
            let left = attach_expr(alloc, left.get(), sight, grown)?;
            let right = subquery(alloc, q, sight)?;
            let attached = contained(alloc, *comparison, left, right)?;
            Ok(attached)
        }
        Input::Scalar(q) => {
            let right = subquery(alloc, q, sight)?;
            let attached = valued(alloc, grown, right)?;
            Ok(attached)
        }
    }
}

#[cycle(depend)]
fn attach_inputs(
    alloc: Global,
    inputs: &[Input],
    sight: &Sight,
    grown: Grown,
) -> Result<Placed, AllocError>
    ensures { IfOk result (λ p. InputsAreSupplied inputs.now sight.now.outer.now sight.now.width
        → Attaches sight.now.outer.now sight.now.start sight.now.width
        (joined_tables (map tables_of_input inputs.now)) (InputsAt inputs.now p.columns)
        grown.tree grown.end p.grown.tree p.grown.end) }
{
    let mut grown = grown;
    let mut columns = Items::new(alloc);
    for input in inputs {
        let attached = attach_input(alloc, input, sight, grown)?;
        columns.push(attached.column)?;
        grown = attached.grown;
    }
    Ok(Placed { grown, columns })
}

#[cycle(depend)]
fn attach_expr(
    alloc: Global,
    e: &BoundExpr,
    sight: &Sight,
    grown: Grown,
) -> Result<Read, AllocError>
    ensures { IfOk result (λ r. ExprIsSupplied e.now sight.now.outer.now sight.now.width
        → Attaches sight.now.outer.now sight.now.start sight.now.width (tables_of_expr e.now)
        (ExprAt e.now r.expr)
        grown.tree grown.end r.grown.tree r.grown.end) }
{
    let placed = attach_inputs(alloc, e.inputs.as_slice(), sight, grown)?;
    let read = over_places(alloc, placed, e.expr.get())?;
    Ok(read)
}

#[cycle(depend)]
fn attach_list(
    alloc: Global,
    list: &[BoundExpr],
    sight: &Sight,
    grown: Grown,
) -> Result<Listed, AllocError>
    ensures attaches { IfOk result
        (λ l. ListIsSupplied list.now sight.now.outer.now sight.now.width
        → Attaches sight.now.outer.now sight.now.start sight.now.width
        (joined_tables (map tables_of_expr list.now)) (ListAt list.now l.exprs)
        grown.tree grown.end l.grown.tree l.grown.end) }
    ensures count { IfOk result (λ l. length l.exprs ≡ length list.now) }
{
    let mut grown = grown;
    let mut exprs = Items::new(alloc);
    for e in list {
        let read = attach_expr(alloc, e, sight, grown)?;
        exprs.push(read.expr.into_inner())?;
        grown = read.grown;
    }
    Ok(Listed { grown, exprs })
}

#[cycle(depend)]
fn attach_aggregate(
    alloc: Global,
    a: &BoundAggregate,
    sight: &Sight,
    grown: Grown,
) -> Result<Counted, AllocError>
    ensures attaches { IfOk result
        (λ c. AggregateIsSupplied a.now sight.now.outer.now sight.now.width
        → Attaches sight.now.outer.now sight.now.start sight.now.width
        (tables_of_aggregate a.now) (AggregateAt a.now c.aggregate)
        grown.tree grown.end c.grown.tree c.grown.end) }
    ensures function { IfOk result (λ c. SameFunction a.now c.aggregate) }
{
    match a {
        BoundAggregate::CountRows => {
            let aggregate = Aggregate::CountRows;
            Ok(Counted { grown, aggregate })
        }
        BoundAggregate::Of(function, scale, argument) => {
            let argument = attach_expr(alloc, argument, sight, grown)?;
            let counted = applied(*function, *scale, argument);
            Ok(counted)
        }
    }
}

#[cycle(depend)]
fn attach_aggregates(
    alloc: Global,
    all: &[BoundAggregate],
    sight: &Sight,
    grown: Grown,
) -> Result<Summed, AllocError>
    ensures attaches { IfOk result
        (λ s. AggregatesAreSupplied all.now sight.now.outer.now sight.now.width
        → Attaches sight.now.outer.now sight.now.start sight.now.width
        (joined_tables (map tables_of_aggregate all.now)) (AggregatesAt all.now s.aggregates)
        grown.tree grown.end s.grown.tree s.grown.end) }
    ensures functions { IfOk result (λ s. SameFunctions all.now s.aggregates) }
    ensures count { IfOk result (λ s. length s.aggregates ≡ length all.now) }
{
    let mut grown = grown;
    let mut aggregates = Items::new(alloc);
    for a in all {
        let counted = attach_aggregate(alloc, a, sight, grown)?;
        aggregates.push(counted.aggregate)?;
        grown = counted.grown;
    }
    Ok(Summed { grown, aggregates })
}
