//! The columns of the rows around that a query reads.
ghost use Rattle.std.specs.Prelude.{◌≡◌, ◌+◌, ◌==◌, ◌&&◌, ◌||◌, ℕ, suc, map, IfOk, OnOk, IsTrue};
ghost use Rattle.sql_bound_query.specs.declared.query.BoundAggregate.TheOpen.{Column};
ghost use Rattle.plan_dependent_nodes.specs.Seeks.{any_seeks, has, input_seeks, seeks_of};
ghost use Rattle.plan_dependent_nodes.specs.Seeks.{seeks_of_aggregate, seeks_of_expr};
ghost use Rattle.plan_dependent_nodes.specs.Seeks.{seeks_of_input};
ghost use Rattle.plan_dependent_nodes.specs.Seeks.{seeks_of_source};
ghost use Rattle.plan_dependent_nodes.specs.Supplied.{Finds};

use plan_dependent_nodes::OuterColumn;
use sql_bound_query::{BoundAggregate, BoundBlock, BoundExpr, BoundSource, Input};
use sqlite_items::Items;
use std::alloc::{AllocError, Global};

/// The columns of the rows around that a query reads, each once.
pub fn outer_columns(alloc: Global, q: &BoundBlock) -> Result<Items<OuterColumn>, AllocError>
    ensures { IfOk result (λ found. (level place : ℕ)
        → has found level place ≡ seeks_of q.now level place) }
{
    let mut found = Items::new(alloc);
    block(q, 0, &mut found)?;
    Ok(found)
}

/// The columns of the rows around its query that a source reads, each once.
pub fn source_columns(alloc: Global, s: &BoundSource) -> Result<Items<OuterColumn>, AllocError>
    ensures { IfOk result (λ found. (level place : ℕ)
        → has found level place ≡ seeks_of_source s.now level place) }
{
    let mut found = Items::new(alloc);
    source(s, 0, &mut found)?;
    Ok(found)
}

/// The columns of the rows around its query that a source reads, or an ON condition above it, which
/// reads its own row first.
pub fn join_columns(
    alloc: Global,
    s: &BoundSource,
    on: &BoundExpr,
) -> Result<Items<OuterColumn>, AllocError>
    ensures { IfOk result (λ found. (level place : ℕ) → has found level place
        ≡ (seeks_of_source s.now level place || seeks_of_expr on.now (suc level) place)) }
{
    let mut found = Items::new(alloc);
    source(s, 0, &mut found)?;
    expr(on, 0, &mut found)?;
    Ok(found)
}

// Adds a column if the list lacks it.
fn put(column: OuterColumn, found: &mut Items<OuterColumn>) -> Result<(), AllocError>
    ensures { OnOk result ((level place : ℕ) → has found.new level place
        ≡ (has found.old level place || ((column.level == level) && (column.place == place)))) }
{
    if found.as_slice().contains(&column) {
        Ok(())
    } else {
        found.push(column)?;
        Ok(())
    }
}

// A column that is read in a query `within` queries further in.
fn column(
    level: u32,
    place: u32,
    within: u32,
    found: &mut Items<OuterColumn>,
) -> Result<(), AllocError>
    ensures { OnOk result
        (Finds (input_seeks (Column level place)) (within + 1) found.old found.new) }
{
    if level > within {
        let level = level - within - 1;
        put(OuterColumn { level, place }, found)?;
    }
    Ok(())
}

#[cycle(outer)]
fn inputs(all: &[Input], within: u32, found: &mut Items<OuterColumn>) -> Result<(), AllocError>
    ensures { OnOk result
        (Finds (any_seeks (map seeks_of_input all.now)) (within + 1) found.old found.new) }
{
    for i in all {
        input(i, within, found)?;
    }
    Ok(())
}

#[cycle(outer)]
fn input(i: &Input, within: u32, found: &mut Items<OuterColumn>) -> Result<(), AllocError>
    ensures { OnOk result (Finds (seeks_of_input i.now) (within + 1) found.old found.new) }
{
    match i {
        Input::Column(level, place) => {
            column(*level, *place, within, found)?;
            Ok(())
        }
        Input::Exists(q) => {
            let deeper = within.checked_add(1).ok_or(AllocError)?;
            block(q.get(), deeper, found)?;
            Ok(())
        }
        Input::Any(_, e, q) => {
            expr(e.get(), within, found)?;
            let deeper = within.checked_add(1).ok_or(AllocError)?;
            block(q.get(), deeper, found)?;
            Ok(())
        }
        Input::Scalar(q) => {
            let deeper = within.checked_add(1).ok_or(AllocError)?;
            block(q.get(), deeper, found)?;
            Ok(())
        }
    }
}

#[cycle(outer)]
fn expr(e: &BoundExpr, within: u32, found: &mut Items<OuterColumn>) -> Result<(), AllocError>
    ensures { OnOk result (Finds (seeks_of_expr e.now) (within + 1) found.old found.new) }
{
    inputs(e.inputs.as_slice(), within, found)?;
    Ok(())
}

#[cycle(outer)]
fn exprs(all: &[BoundExpr], within: u32, found: &mut Items<OuterColumn>) -> Result<(), AllocError>
    ensures { OnOk result
        (Finds (any_seeks (map seeks_of_expr all.now)) (within + 1) found.old found.new) }
{
    for e in all {
        expr(e, within, found)?;
    }
    Ok(())
}

#[cycle(outer)]
fn aggregates(
    all: &[BoundAggregate],
    within: u32,
    found: &mut Items<OuterColumn>,
) -> Result<(), AllocError>
    ensures { OnOk result
        (Finds (any_seeks (map seeks_of_aggregate all.now)) (within + 1) found.old found.new) }
{
    for a in all {
        aggregate(a, within, found)?;
    }
    Ok(())
}

#[cycle(outer)]
fn aggregate(
    a: &BoundAggregate,
    within: u32,
    found: &mut Items<OuterColumn>,
) -> Result<(), AllocError>
    ensures { OnOk result (Finds (seeks_of_aggregate a.now) (within + 1) found.old found.new) }
{
    match a {
        BoundAggregate::CountRows => Ok(()),
        BoundAggregate::Of(_, _, argument) => {
            expr(argument, within, found)?;
            Ok(())
        }
    }
}

// A derived table sees no row around it. A lateral item's nearest row is the row so far, so that
// the rows around are one row further out.
#[cycle(outer)]
fn source(s: &BoundSource, within: u32, found: &mut Items<OuterColumn>) -> Result<(), AllocError>
    ensures { OnOk result (Finds (seeks_of_source s.now) within found.old found.new) }
{
    match s {
        BoundSource::Table(_) => Ok(()),
        BoundSource::Derived(_, _) => Ok(()),
        BoundSource::Lateral(q) => {
            let deeper = within.checked_add(1).ok_or(AllocError)?;
            block(q.get(), deeper, found)?;
            Ok(())
        }
        BoundSource::Cross(a, b) => {
            source(a.get(), within, found)?;
            source(b.get(), within, found)?;
            Ok(())
        }
        BoundSource::Inner(a, b, on) => {
            source(a.get(), within, found)?;
            source(b.get(), within, found)?;
            expr(on, within, found)?;
            Ok(())
        }
        BoundSource::Outer(a, b, _, on) => {
            source(a.get(), within, found)?;
            source(b.get(), within, found)?;
            expr(on, within, found)?;
            Ok(())
        }
    }
}

#[cycle(outer)]
fn block(q: &BoundBlock, within: u32, found: &mut Items<OuterColumn>) -> Result<(), AllocError>
    ensures { OnOk result (Finds (seeks_of q.now) within found.old found.new) }
{
    match q {
        BoundBlock::Plain(from, condition, list) => {
            source(from.get(), within, found)?;
            expr(condition, within, found)?;
            exprs(list.as_slice(), within, found)?;
            Ok(())
        }
        BoundBlock::Grouped(from, condition, _, all, having, list) => {
            source(from.get(), within, found)?;
            expr(condition, within, found)?;
            aggregates(all.as_slice(), within, found)?;
            expr(having, within, found)?;
            exprs(list.as_slice(), within, found)?;
            Ok(())
        }
        BoundBlock::Distinct(q) => {
            block(q.get(), within, found)?;
            Ok(())
        }
        BoundBlock::Set(a, b, _, _) => {
            block(a.get(), within, found)?;
            block(b.get(), within, found)?;
            Ok(())
        }
    }
}
