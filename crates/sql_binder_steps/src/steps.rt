//! Columns, aggregates and subqueries of an expression, once their parts are bound.
ghost use Rattle.std.specs.Prelude.{◌≡◌, ◌∷◌, map, length, IfOk};
ghost use Rattle.sql_binder_steps.specs.Steps.{Gives, Binds};
ghost use Rattle.sql_binder_steps.specs.Names.{sight_of, level_of};
ghost use Rattle.sql_binder_steps.specs.Parts as spec;
ghost use Rattle.sql_binder_steps.specs.Sets as sets;

use crate::collected::{BoundKind, BoundTable, Collected, Part, Typed};
use crate::fault::BindFault;
use crate::kinds::{aggregate_kind, argument_scale, fits};
use crate::scope::{Level, ScopeColumn, Site, narrow, resolved};
use crate::values::{comparison_of, typed};
use crate::view::Header;
use base_refusals::BindRefusal;
use expr_aggregates::AggregateFunction;
use expr_operators::Comparison;
use expr_scalar::{Expr, Kind};
use sql_ast::{Aggregate, Column, Quantifier};
use sql_bound_query::{BoundAggregate, Input};
use sqlite_items::Boxed;
use std::alloc::{AllocError, Global};

/// A column, as an input of the clause.
#[tactic(auto, unfolding(crate::specs::Parts::column))]
pub fn column(
    alloc: Global,
    site: &Site<'_>,
    state: &mut Collected,
    name: &Column,
) -> Result<Typed, BindFault>
    ensures { Binds (spec.column (sight_of site.now) name.now state.old) result state.new }
{
    let c = resolved(site, name)?;
    let k = state.input(Input::Column(c.level, c.at))?;
    let t = typed(alloc, Expr::Column(k), BoundKind::Value(c.kind))?;
    Ok(t)
}

/// A query before the queries around it.
pub fn before<'a>(
    alloc: Global,
    level: Level<'a>,
    outer: &[Level<'a>],
) -> Result<Vec<Level<'a>>, AllocError>
    ensures { IfOk result (λ all. map level_of all.items
        ≡ level_of level.entry ∷ map level_of outer.now) }
{
    let mut all = Vec::new(alloc);
    all.push(level)?;
    all.extend_from_slice(outer)?;
    Ok(all)
}

fn is_outer(i: &Input) -> bool
    ensures { result ≡ spec.is_outer i.now }
{
    match i {
        Input::Column(level, _) => *level > 0,
        Input::Exists(_) | Input::Any(_, _, _) | Input::Scalar(_) => false,
    }
}

fn any_outer(mut all: &[Input]) -> bool
    ensures { result ≡ spec.any_outer all.entry.now }
{
    'all: while let [i, rest @ ..] = all {
        if is_outer(i) {
            return true;
        }
        all = rest;
    }
    false
}

fn reads_groups(site: &Site<'_>) -> bool
    ensures { result ≡ spec.reads_groups (sight_of site.now) }
{
    match site.levels {
        [] => false,
        [level, ..] => level.keys.is_some(),
    }
}

/// One aggregate more of the query whose groups are read here.
#[tactic(auto, unfolding(crate::specs::Parts::grouped))]
pub fn grouped(
    alloc: Global,
    site: &Site<'_>,
    state: &mut Collected,
    a: BoundAggregate,
    kind: Kind,
) -> Result<Typed, BindFault>
    ensures { Binds (spec.grouped (sight_of site.now) a kind state.old) result state.new }
{
    let [level, ..] = site.levels else {
        return Err(BindFault::Refused(BindRefusal::NestedAggregate));
    };
    let Some(keys) = level.keys else {
        return Err(BindFault::Refused(BindRefusal::NestedAggregate));
    };
    let j = state.aggregate(a)?;
    let at = narrow(keys.len().checked_add(j).ok_or(AllocError)?)?;
    let k = state.input(Input::Column(0, at))?;
    let t = typed(alloc, Expr::Column(k), BoundKind::Value(kind))?;
    Ok(t)
}

/// An aggregate of an argument.
#[tactic(auto, unfolding(crate::specs::Parts::aggregated))]
pub fn aggregated(
    alloc: Global,
    site: &Site<'_>,
    state: &mut Collected,
    function: AggregateFunction,
    p: Part,
) -> Result<Typed, BindFault>
    ensures { Binds (spec.aggregated (sight_of site.now) function p state.old) result state.new }
{
    let kind = aggregate_kind(function, p.kind)?;
    if reads_groups(site) && any_outer(p.expr.inputs.as_slice()) {
        return Err(BindFault::Refused(BindRefusal::OuterAggregate));
    }
    let a = BoundAggregate::Of(function, argument_scale(p.kind), p.expr);
    let t = grouped(alloc, site, state, a, kind)?;
    Ok(t)
}

/// The functions by their names.
pub fn function_of(named: Aggregate) -> AggregateFunction
    ensures { result ≡ spec.function_of named }
{
    match named {
        Aggregate::Sum => AggregateFunction::Sum,
        Aggregate::Avg => AggregateFunction::Avg,
        Aggregate::Min => AggregateFunction::Min,
        Aggregate::Max => AggregateFunction::Max,
    }
}

fn mark(alloc: Global, k: u32) -> Result<Typed, AllocError>
    ensures { IfOk result (λ t. t ≡ spec.mark k) }
{
    let column = Boxed::new(alloc, Expr::Column(k))?;
    let t = typed(alloc, Expr::IsMarked(column), BoundKind::Condition)?;
    Ok(t)
}

/// A subquery may stand here.
fn allowed(site: &Site<'_>) -> Result<(), BindFault>
    ensures { Gives (spec.place_of (sight_of site.now)) result }
{
    if site.takes_subqueries {
        Ok(())
    } else {
        Err(BindFault::Refused(BindRefusal::SubqueryPlace))
    }
}

/// The kind of the only column.
fn single(headers: &[Header]) -> Result<Kind, BindFault>
    ensures { Gives (spec.single headers.now) result }
{
    match headers {
        [h] => Ok(h.kind),
        _ => Err(BindFault::Refused(BindRefusal::SubqueryColumns)),
    }
}

#[tactic(auto, unfolding(crate::specs::Parts::member))]
fn member(left: BoundKind, headers: &[Header]) -> Result<(), BindFault>
    ensures { Gives (spec.member left headers.now) result }
{
    let kind = single(headers)?;
    if fits(left, BoundKind::Value(kind)) {
        Ok(())
    } else {
        Err(BindFault::Refused(BindRefusal::TypeMismatch))
    }
}

/// EXISTS
#[tactic(auto, unfolding(crate::specs::Parts::existing))]
pub fn existing(
    alloc: Global,
    site: &Site<'_>,
    state: &mut Collected,
    t: BoundTable,
) -> Result<Typed, BindFault>
    ensures { Binds (spec.existing (sight_of site.now) t state.old) result state.new }
{
    allowed(site)?;
    let k = state.input(Input::Exists(t.block))?;
    let t = mark(alloc, k)?;
    Ok(t)
}

/// IN
#[tactic(auto, unfolding(crate::specs::Parts::containing))]
pub fn containing(
    alloc: Global,
    site: &Site<'_>,
    state: &mut Collected,
    left: Part,
    t: BoundTable,
) -> Result<Typed, BindFault>
    ensures { Binds (spec.containing (sight_of site.now) left t state.old) result state.new }
{
    member(left.kind, t.headers.as_slice())?;
    allowed(site)?;
    let k = state.input(Input::Any(Comparison::Equal, Boxed::new(alloc, left.expr)?, t.block))?;
    let t = mark(alloc, k)?;
    Ok(t)
}

// The comparison that is true where another is false.
fn contrary(c: sql_ast::Comparison) -> sql_ast::Comparison
    ensures { result ≡ sets.contrary c }
{
    match c {
        sql_ast::Comparison::Equal => sql_ast::Comparison::NotEqual,
        sql_ast::Comparison::NotEqual => sql_ast::Comparison::Equal,
        sql_ast::Comparison::Less => sql_ast::Comparison::GreaterOrEqual,
        sql_ast::Comparison::LessOrEqual => sql_ast::Comparison::Greater,
        sql_ast::Comparison::Greater => sql_ast::Comparison::LessOrEqual,
        sql_ast::Comparison::GreaterOrEqual => sql_ast::Comparison::Less,
    }
}

fn asked(q: Quantifier, c: sql_ast::Comparison) -> Comparison
    ensures { result ≡ sets.asked q c }
{
    match q {
        Quantifier::Any => comparison_of(c),
        Quantifier::All => comparison_of(contrary(c)),
    }
}

fn quantified(alloc: Global, q: Quantifier, k: u32) -> Result<Typed, AllocError>
    ensures { IfOk result (λ t. t ≡ sets.quantified q (spec.mark k)) }
{
    let m = mark(alloc, k)?;
    match q {
        Quantifier::Any => Ok(m),
        Quantifier::All => {
            let t = typed(alloc, Expr::Not(m.value), BoundKind::Condition)?;
            Ok(t)
        }
    }
}

/// A comparison with ANY or ALL.
#[tactic(auto, unfolding(crate::specs::Sets::comparing))]
pub fn comparing(
    alloc: Global,
    site: &Site<'_>,
    state: &mut Collected,
    c: sql_ast::Comparison,
    q: Quantifier,
    left: Part,
    t: BoundTable,
) -> Result<Typed, BindFault>
    ensures { Binds (sets.comparing (sight_of site.now) c q left t state.old) result state.new }
{
    member(left.kind, t.headers.as_slice())?;
    allowed(site)?;
    let k = state.input(Input::Any(asked(q, c), Boxed::new(alloc, left.expr)?, t.block))?;
    let t = quantified(alloc, q, k)?;
    Ok(t)
}

/// The value of a query of one column.
#[tactic(auto, unfolding(crate::specs::Parts::only_value))]
pub fn only_value(
    alloc: Global,
    site: &Site<'_>,
    state: &mut Collected,
    t: BoundTable,
) -> Result<Typed, BindFault>
    ensures { Binds (spec.only_value (sight_of site.now) t state.old) result state.new }
{
    let kind = single(t.headers.as_slice())?;
    allowed(site)?;
    let k = state.input(Input::Scalar(t.block))?;
    let t = typed(alloc, Expr::Column(k), BoundKind::Value(kind))?;
    Ok(t)
}
