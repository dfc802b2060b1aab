//! What can be read off a query before its names are bound.
ghost use Rattle.std.specs.Prelude.{◌≡◌, map, IfOk};
ghost use Rattle.sql_binder.specs.Expressions as exprs;
ghost use Rattle.sql_binder.specs.Blocks as blocks;
ghost use Rattle.sql_binder.specs.Binding as trees;
ghost use Rattle.sql_binder.specs.Binding.{meaning, term_meaning, factor_meaning, arm_meaning};
ghost use Rattle.sql_binder.specs.Binding.{item_meaning, selected_meaning};

use base_text::Text;
use sql_ast::{Arm, Clause, Expr, Factor, Item, Name, Select, Selected, Span, Term};
use sql_binder_steps::names::share;
use std::alloc::{AllocError, Global};

/// Whether an aggregate stands in it, outside of subqueries.
#[cycle(aggregates)]
#[tactic(auto, using(crate::proofs::Opened::expr_opened))]
fn aggregates(e: &Expr) -> bool
    ensures { result ≡ (meaning e.now).aggregates }
{
    match e {
        Expr::Number(_, _) | Expr::Text(_) | Expr::Date(_) | Expr::Interval(_, _) => false,
        Expr::Column(_) | Expr::Exists(_) | Expr::Scalar(_) => false,
        Expr::Negative(a) | Expr::IsNull(a) | Expr::Like(a, _) | Expr::InQuery(a, _) => {
            aggregates(a.get())
        }
        Expr::Not(a) | Expr::Extract(_, a) | Expr::Substring(a, _, _) => aggregates(a.get()),
        Expr::CompareQuery(_, _, a, _) => aggregates(a.get()),
        Expr::Sum(a, terms) => aggregates(a.get()) || any_in_terms(terms.as_slice()),
        Expr::Product(a, factors) => aggregates(a.get()) || any_in_factors(factors.as_slice()),
        Expr::Compare(_, a, b) => aggregates(a.get()) || aggregates(b.get()),
        Expr::Between(a, low, high) => {
            aggregates(a.get()) || aggregates(low.get()) || aggregates(high.get())
        }
        Expr::InList(a, list) => aggregates(a.get()) || any_aggregate(list.as_slice()),
        Expr::And(a, rest) | Expr::Or(a, rest) => {
            aggregates(a.get()) || any_aggregate(rest.as_slice())
        }
        Expr::Case(arms) => any_in_arms(arms.as_slice()),
        Expr::CaseElse(arms, other) => any_in_arms(arms.as_slice()) || aggregates(other.get()),
        Expr::CountRows | Expr::Count(_) | Expr::CountDistinct(_) | Expr::Aggregate(_, _) => true,
    }
}

#[cycle(aggregates)]
fn any_aggregate(all: &[Expr]) -> bool
    ensures { result ≡ exprs.any_aggregate (map meaning all.now) }
{
    for e in all {
        if aggregates(e) {
            return true;
        }
    }
    false
}

#[cycle(aggregates)]
#[tactic(auto, using(crate::proofs::Opened::term_is))]
fn in_term(t: &Term) -> bool
    ensures { result ≡ (term_meaning t.now).aggregates }
{
    aggregates(&t.value)
}

#[cycle(aggregates)]
fn any_in_terms(all: &[Term]) -> bool
    ensures { result ≡ exprs.any_in_chain (map term_meaning all.now) }
{
    for t in all {
        if in_term(t) {
            return true;
        }
    }
    false
}

#[cycle(aggregates)]
#[tactic(auto, using(crate::proofs::Opened::factor_is))]
fn in_factor(f: &Factor) -> bool
    ensures { result ≡ (factor_meaning f.now).aggregates }
{
    aggregates(&f.value)
}

#[cycle(aggregates)]
fn any_in_factors(all: &[Factor]) -> bool
    ensures { result ≡ exprs.any_in_chain (map factor_meaning all.now) }
{
    for f in all {
        if in_factor(f) {
            return true;
        }
    }
    false
}

#[cycle(aggregates)]
#[tactic(auto, using(crate::proofs::Opened::arm_is))]
fn in_arm(a: &Arm) -> bool
    ensures { result ≡ exprs.in_arm (arm_meaning a.now) }
{
    aggregates(&a.condition) || aggregates(&a.value)
}

#[cycle(aggregates)]
fn any_in_arms(all: &[Arm]) -> bool
    ensures { result ≡ exprs.any_in_arms (map arm_meaning all.now) }
{
    for a in all {
        if in_arm(a) {
            return true;
        }
    }
    false
}

#[tactic(auto, using(crate::proofs::Opened::item_is))]
fn in_item(i: &Item) -> bool
    ensures { result ≡ (item_meaning i.now).aggregates }
{
    aggregates(&i.value)
}

fn any_in_items(mut all: &[Item]) -> bool
    ensures { result ≡ blocks.any_in_items (map item_meaning all.entry.now) }
{
    'all: while let [i, rest @ ..] = all {
        if in_item(i) {
            return true;
        }
        all = rest;
    }
    false
}

#[tactic(auto, using(crate::proofs::Opened::selected_opened))]
fn items_aggregate(s: &Selected) -> bool
    ensures { result ≡ blocks.items_aggregate (selected_meaning s.now) }
{
    match s {
        Selected::All => false,
        Selected::Items(items) => any_in_items(items.as_slice()),
    }
}

#[tactic(auto, using(crate::proofs::Opened::clause_opened))]
fn is_there(c: &Clause) -> bool
    ensures { result ≡ blocks.is_there (trees.clause_meaning c.now) }
{
    match c {
        Clause::Absent => false,
        Clause::Condition(_) => true,
    }
}

/// Whether groups are made.
#[tactic(auto, unfolding(crate::specs::Binding::is_grouped_select, crate::specs::Blocks::is_grouped))]
pub fn is_grouped(q: &Select) -> bool
    ensures { result ≡ trees.is_grouped_select q.now }
{
    !q.group.is_empty() || is_there(&q.having) || items_aggregate(&q.selected)
}

/// The digits and the unit of an interval.
#[tactic(auto, using(crate::proofs::Opened::expr_opened))]
pub fn interval_of(e: &Expr) -> Result<Option<(Text, Span)>, AllocError>
    ensures { IfOk result (λ i. i ≡ (meaning e.now).interval) }
{
    match e {
        Expr::Interval(text, span) => {
            let text = text.clone()?;
            Ok(Some((text, *span)))
        }
        Expr::Number(_, _) | Expr::Text(_) | Expr::Date(_) | Expr::Column(_) => Ok(None),
        Expr::Negative(_) | Expr::Sum(_, _) | Expr::Product(_, _) => Ok(None),
        Expr::Compare(_, _, _) | Expr::IsNull(_) | Expr::Between(_, _, _) => Ok(None),
        Expr::Like(_, _) | Expr::InList(_, _) | Expr::InQuery(_, _) => Ok(None),
        Expr::CompareQuery(_, _, _, _) => Ok(None),
        Expr::Exists(_) | Expr::Scalar(_) | Expr::Not(_) => Ok(None),
        Expr::And(_, _) | Expr::Or(_, _) | Expr::Case(_) | Expr::CaseElse(_, _) => Ok(None),
        Expr::Extract(_, _) | Expr::Substring(_, _, _) | Expr::CountRows => Ok(None),
        Expr::Count(_) | Expr::CountDistinct(_) | Expr::Aggregate(_, _) => Ok(None),
    }
}

/// The name that an expression gives to an output column, the empty one where it gives none.
#[tactic(auto, using(crate::proofs::Opened::expr_opened))]
fn own_name(alloc: Global, e: &Expr) -> Result<Name, AllocError>
    ensures { IfOk result (λ n. n ≡ (meaning e.now).name) }
{
    match e {
        Expr::Column(c) => {
            let name = share(&c.name)?;
            Ok(name)
        }
        Expr::Number(_, _) | Expr::Text(_) | Expr::Date(_) | Expr::Interval(_, _) => no_name(alloc),
        Expr::Negative(_) | Expr::Sum(_, _) | Expr::Product(_, _) => no_name(alloc),
        Expr::Compare(_, _, _) | Expr::IsNull(_) | Expr::Between(_, _, _) => no_name(alloc),
        Expr::Like(_, _) | Expr::InList(_, _) | Expr::InQuery(_, _) => no_name(alloc),
        Expr::CompareQuery(_, _, _, _) => no_name(alloc),
        Expr::Exists(_) | Expr::Scalar(_) | Expr::Not(_) => no_name(alloc),
        Expr::And(_, _) | Expr::Or(_, _) | Expr::Case(_) | Expr::CaseElse(_, _) => no_name(alloc),
        Expr::Extract(_, _) | Expr::Substring(_, _, _) | Expr::CountRows => no_name(alloc),
        Expr::Count(_) | Expr::CountDistinct(_) | Expr::Aggregate(_, _) => no_name(alloc),
    }
}

fn no_name(alloc: Global) -> Result<Name, AllocError>
    ensures { IfOk result (λ n. n ≡ exprs.no_name) }
{
    let name = Text::of_printable(alloc, b"")?;
    Ok(name)
}

/// The name of an output column.
#[tactic(auto, using(crate::proofs::Opened::item_is))]
pub fn item_name(alloc: Global, i: &Item) -> Result<Name, AllocError>
    ensures { IfOk result (λ n. n ≡ (item_meaning i.now).name) }
{
    match &i.alias {
        Some(alias) => {
            let name = share(alias)?;
            Ok(name)
        }
        None => {
            let name = own_name(alloc, &i.value)?;
            Ok(name)
        }
    }
}
