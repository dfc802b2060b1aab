//! Conditions, select lists, GROUP BY, ORDER BY, and whole queries.
ghost use Rattle.std.specs.Prelude.{◌≡◌, unwrap_or, [], IfOk};
ghost use Rattle.sql_binder_steps.specs.Steps.{Gives, Binds};
ghost use Rattle.sql_binder_steps.specs.Parts as spec;

use crate::collected::{BoundKind, BoundTable, Collected, FromRows, Part, Shown};
use crate::fault::BindFault;
use crate::kinds::is_condition;
use crate::names::share;
use crate::scope::{ScopeColumn, narrow, placed, same_name, the_one};
use crate::view::Header;
use base_order_limit::OrderKey;
use base_refusals::BindRefusal;
use expr_scalar::{Expr, Kind};
use sql_ast::{Column, Name, NamedKey};
use sql_bound_query::{BoundBlock, BoundExpr, Input};
use sqlite_items::{Boxed, Items};
use std::alloc::{AllocError, Global};

/// The condition that always holds.
pub fn no_condition(alloc: Global) -> Result<BoundExpr, AllocError>
    ensures { IfOk result (λ e. e ≡ spec.no_condition) }
{
    Ok(BoundExpr {
        inputs: Items::new(alloc),
        expr: Boxed::new(alloc, Expr::All(Items::new(alloc)))?,
    })
}

/// A condition.
#[tactic(auto, unfolding(crate::specs::Parts::holding))]
pub fn holding(p: Part) -> Result<BoundExpr, BindFault>
    ensures { Gives (spec.holding p) result }
{
    if is_condition(p.kind) {
        Ok(p.expr)
    } else {
        Err(BindFault::Refused(BindRefusal::TypeMismatch))
    }
}

/// No columns.
pub fn nothing_shown(alloc: Global) -> Shown
    ensures { result ≡ spec.nothing_shown }
{
    Shown {
        list: Items::new(alloc),
        headers: Items::new(alloc),
    }
}

fn listed(done: Shown, expr: BoundExpr, name: Name, kind: Kind) -> Result<Shown, AllocError>
    ensures { IfOk result (λ s. s ≡ spec.listed done expr name kind) }
{
    let Shown {
        mut list,
        mut headers,
    } = done;
    list.push(expr)?;
    headers.push(Header { name, kind })?;
    Ok(Shown { list, headers })
}

/// One column more of a select list.
#[tactic(auto, unfolding(crate::specs::Parts::shown_part))]
pub fn shown_part(done: Shown, name: Name, p: Part) -> Result<Shown, BindFault>
    ensures { Gives (spec.shown_part done name p) result }
{
    let Part { expr, kind } = p;
    match kind {
        BoundKind::Value(kind) => Ok(listed(done, expr, name, kind)?),
        BoundKind::Condition => Err(BindFault::Refused(BindRefusal::TypeMismatch)),
    }
}

fn one_column(alloc: Global, at: u32) -> Result<BoundExpr, AllocError>
    ensures { IfOk result (λ e. e ≡ spec.one_column at) }
{
    let mut inputs = Items::new(alloc);
    inputs.push(Input::Column(0, at))?;
    Ok(BoundExpr {
        inputs,
        expr: Boxed::new(alloc, Expr::Column(0))?,
    })
}

/// `*`
#[tactic(auto, unfolding(crate::specs::Parts::star))]
pub fn star(
    alloc: Global,
    keys: &Option<Items<u32>>,
    columns: &[ScopeColumn],
) -> Result<Shown, BindFault>
    ensures { Gives (spec.star keys.now columns.now) result }
{
    let mut done = nothing_shown(alloc);
    let mut at = 0;
    let mut left = columns;
    'columns: while let [c, rest @ ..] = left {
        let k = placed(keys, narrow(at)?)?;
        let expr = one_column(alloc, k)?;
        done = listed(done, expr, share(&c.name)?, c.kind)?;
        at += 1;
        left = rest;
    }
    Ok(done)
}

/// The places of GROUP BY columns.
#[tactic(auto, unfolding(crate::specs::Parts::keys_of))]
pub fn keys_of(
    alloc: Global,
    columns: &[ScopeColumn],
    group: &[Column],
) -> Result<Items<u32>, BindFault>
    ensures { Gives (spec.keys_of columns.now group.now) result }
{
    let mut done = Items::new(alloc);
    let mut left = group;
    'group: while let [name, rest @ ..] = left {
        let p = the_one(name, columns)?;
        done.push(p.at)?;
        left = rest;
    }
    Ok(done)
}

/// A query without groups.
#[tactic(auto, unfolding(crate::specs::Parts::plain))]
pub fn plain(
    alloc: Global,
    from: FromRows,
    kept: BoundExpr,
    shown: Shown,
) -> Result<BoundTable, AllocError>
    ensures { IfOk result (λ t. t ≡ spec.plain from kept shown) }
{
    let block = BoundBlock::Plain(from.source, kept, shown.list);
    Ok(BoundTable {
        block: Boxed::new(alloc, block)?,
        headers: shown.headers,
    })
}

/// A query with groups, once all its aggregates are known.
#[tactic(auto, unfolding(crate::specs::Parts::closing))]
pub fn closing(
    alloc: Global,
    state: &mut Collected,
    from: FromRows,
    kept: BoundExpr,
    keys: Option<Items<u32>>,
    lists: (Shown, BoundExpr),
) -> Result<BoundTable, BindFault>
    ensures { Binds (spec.closing from kept (unwrap_or keys []) lists.0 lists.1 state.old) result
        state.new }
{
    let (shown, having) = lists;
    let keys = match keys {
        Some(keys) => keys,
        None => Items::new(alloc),
    };
    let all = state.take_aggregates(alloc)?;
    let block = BoundBlock::Grouped(from.source, kept, keys, all, having, shown.list);
    Ok(BoundTable {
        block: Boxed::new(alloc, block)?,
        headers: shown.headers,
    })
}

/// DISTINCT
#[tactic(auto, unfolding(crate::specs::Parts::once_each))]
pub fn once_each(alloc: Global, is_distinct: bool, t: BoundTable) -> Result<BoundTable, AllocError>
    ensures { IfOk result (λ u. u ≡ spec.once_each is_distinct t) }
{
    if is_distinct {
        Ok(BoundTable {
            block: Boxed::new(alloc, BoundBlock::Distinct(t.block))?,
            headers: t.headers,
        })
    } else {
        Ok(t)
    }
}

#[tactic(auto, unfolding(crate::specs::Parts::output_place))]
fn output_place(name: &Name, headers: &[Header]) -> Result<u32, BindFault>
    ensures { Gives (spec.output_place name.now headers.now) result }
{
    let mut found = None;
    let mut at = 0;
    let mut left = headers;
    'headers: while let [h, rest @ ..] = left {
        if same_name(&h.name, name) {
            if found.is_some() {
                return Err(BindFault::Refused(BindRefusal::AmbiguousColumn));
            }
            found = Some(narrow(at)?);
        }
        at += 1;
        left = rest;
    }
    match found {
        Some(place) => Ok(place),
        None => Err(BindFault::Refused(BindRefusal::UnknownColumn)),
    }
}

/// ORDER BY: each key is the one output column of its name.
#[tactic(auto, unfolding(crate::specs::Parts::order_of))]
pub fn order_of(
    alloc: Global,
    headers: &[Header],
    order: &[NamedKey],
) -> Result<Items<OrderKey>, BindFault>
    ensures { Gives (spec.order_of headers.now order.now) result }
{
    let mut done = Items::new(alloc);
    let mut left = order;
    'order: while let [key, rest @ ..] = left {
        let column = output_place(&key.column, headers)?;
        done.push(OrderKey {
            column,
            is_descending: key.is_descending,
        })?;
        left = rest;
    }
    Ok(done)
}
