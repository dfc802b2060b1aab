//! FROM lists.
ghost use Rattle.std.specs.Prelude.{◌≡◌, drop, length, IfOk};
ghost use Rattle.sql_binder_steps.specs.Steps.{Gives, Binds};
ghost use Rattle.sql_binder_steps.specs.Names.{sight_of, statement_views};
ghost use Rattle.sql_binder_steps.specs.Parts as spec;

use crate::collected::{BoundTable, Collected, FromRows};
use crate::fault::BindFault;
use crate::names::{columns_of, listed_headers, table_headers, unused};
use crate::scope::{ScopeColumn, Site, narrow, same_name};
use crate::view::{Header, StatementViews, View, copy_headers};
use base_refusals::BindRefusal;
use base_schema::TableName;
use sql_ast::{JoinKind, Name};
use sql_bound_query::{BoundExpr, BoundSource, copy_block};
use sqlite_items::{Boxed, Items};
use std::alloc::{AllocError, Global};

/// What a FROM name stands for: its rows, its columns, and how many FROM items the use of it
/// counts.
#[derive(Drop)]
pub struct NamedItem {
    pub source: Boxed<BoundSource>,
    pub headers: Items<Header>,
    pub items: u64,
}

/// Two sources that are to be joined: the right one's number of columns, and the columns of all so
/// far.
#[derive(Drop)]
pub struct Joining {
    pub left: Boxed<BoundSource>,
    pub right: Boxed<BoundSource>,
    pub width: u32,
    pub columns: Items<ScopeColumn>,
}

fn table_item(alloc: Global, table: TableName) -> Result<NamedItem, AllocError>
    ensures { IfOk result (λ i. i ≡ spec.table_item table) }
{
    let headers = table_headers(alloc, table)?;
    Ok(NamedItem {
        source: Boxed::new(alloc, BoundSource::Table(table))?,
        headers,
        items: 1,
    })
}

fn view_item(alloc: Global, v: &View) -> Result<NamedItem, AllocError>
    ensures { IfOk result (λ i. i ≡ spec.view_item v.now) }
{
    let headers = copy_headers(alloc, v.columns.as_slice())?;
    let block = copy_block(alloc, v.block.get())?;
    let block = Boxed::new(alloc, block)?;
    Ok(NamedItem {
        source: Boxed::new(alloc, BoundSource::Derived(v.kept, block))?,
        headers,
        items: v.items as u64 + 1,
    })
}

fn view_named(alloc: Global, name: &Name, views: &[View]) -> Result<Option<NamedItem>, AllocError>
    ensures { IfOk result (λ i. i ≡ spec.view_named name.now views.now) }
{
    let mut left = views;
    'views: while let [v, rest @ ..] = left {
        if same_name(&v.name, name) {
            let item = view_item(alloc, v)?;
            return Ok(Some(item));
        }
        left = rest;
    }
    Ok(None)
}

/// A query of WITH, else a view of the session.
#[tactic(auto, using(crate::proofs::Small::named_in_front, crate::proofs::Small::named_behind))]
fn statement_view_named(
    alloc: Global,
    name: &Name,
    views: &StatementViews<'_>,
) -> Result<Option<NamedItem>, AllocError>
    ensures { IfOk result (λ i. i ≡ spec.view_named name.now (statement_views views.now)) }
{
    match view_named(alloc, name, views.with_queries)? {
        Some(item) => Ok(Some(item)),
        None => {
            let item = view_named(alloc, name, views.session)?;
            Ok(item)
        }
    }
}

/// A view of the statement, else a table of the schema.
#[tactic(auto, unfolding(crate::specs::Parts::named_item))]
pub fn named_item(
    alloc: Global,
    name: &Name,
    views: &StatementViews<'_>,
) -> Result<NamedItem, BindFault>
    ensures { Gives (spec.named_item name.now (statement_views views.now)) result }
{
    match statement_view_named(alloc, name, views)? {
        Some(item) => Ok(item),
        None => match TableName::from_name(name.bytes()) {
            Some(table) => Ok(table_item(alloc, table)?),
            None => Err(BindFault::Refused(BindRefusal::UnknownTable)),
        },
    }
}

/// An item of FROM with its columns.
pub fn item_rows(
    alloc: Global,
    source: Boxed<BoundSource>,
    alias: &Name,
    headers: &[Header],
) -> Result<FromRows, AllocError>
    ensures { IfOk result (λ f. f ≡ spec.item_rows source alias.now headers.now) }
{
    let columns = columns_of(alloc, alias, headers)?;
    Ok(FromRows { source, columns })
}

/// A table or a view as an item of FROM.
#[tactic(auto, unfolding(crate::specs::Parts::table_rows))]
pub fn table_rows(
    alloc: Global,
    site: &Site<'_>,
    state: &mut Collected,
    name: &Name,
    alias: &Name,
    left: &[ScopeColumn],
) -> Result<FromRows, BindFault>
    ensures { Binds (spec.table_rows (sight_of site.now) name.now alias.now left.now state.old)
        result state.new }
{
    let found = named_item(alloc, name, site.views)?;
    state.counted(found.items)?;
    unused(left, alias)?;
    Ok(item_rows(alloc, found.source, alias, found.headers.as_slice())?)
}

/// A query as an item of FROM, once it is bound.
#[tactic(auto, unfolding(crate::specs::Parts::named_rows))]
fn named_rows(
    alloc: Global,
    source: Boxed<BoundSource>,
    headers: Items<Header>,
    alias: &Name,
    names: &[Name],
    left: &[ScopeColumn],
) -> Result<FromRows, BindFault>
    ensures { Gives (spec.named_rows source headers alias.now names.now left.now) result }
{
    unused(left, alias)?;
    let headers = listed_headers(alloc, names, headers)?;
    Ok(item_rows(alloc, source, alias, headers.as_slice())?)
}

/// A derived table as an item of FROM, once its query is bound.
pub fn derived_rows(
    alloc: Global,
    t: BoundTable,
    alias: &Name,
    names: &[Name],
    left: &[ScopeColumn],
) -> Result<FromRows, BindFault>
    ensures { Gives (spec.derived_rows t alias.now names.now left.now) result }
{
    let source = Boxed::new(alloc, BoundSource::Derived(None, t.block))?;
    named_rows(alloc, source, t.headers, alias, names, left)
}

/// A lateral item of FROM, once its query is bound.
pub fn lateral_rows(
    alloc: Global,
    t: BoundTable,
    alias: &Name,
    names: &[Name],
    left: &[ScopeColumn],
) -> Result<FromRows, BindFault>
    ensures { Gives (spec.lateral_rows t alias.now names.now left.now) result }
{
    let source = Boxed::new(alloc, BoundSource::Lateral(t.block))?;
    named_rows(alloc, source, t.headers, alias, names, left)
}

/// The columns so far.
pub fn columns_so_far(done: &Option<FromRows>) -> &[ScopeColumn]
    ensures { result.now ≡ spec.columns_so_far done.now }
{
    match done {
        None => &[],
        Some(f) => f.columns.as_slice(),
    }
}

/// What stands before a comma, and the first item after it with the columns of all so far.
#[tactic(auto, unfolding(crate::specs::Parts::first_rows))]
pub fn first_rows(
    done: Option<FromRows>,
    o: FromRows,
) -> Result<(Option<Boxed<BoundSource>>, FromRows), AllocError>
    ensures { IfOk result (λ r. r ≡ spec.first_rows done o) }
{
    match done {
        None => Ok((None, o)),
        Some(f) => {
            let FromRows {
                source,
                mut columns,
            } = f;
            columns.append(o.columns)?;
            Ok((
                Some(source),
                FromRows {
                    source: o.source,
                    columns,
                },
            ))
        }
    }
}

/// What stands after a comma, with what stands before it.
#[tactic(auto, unfolding(crate::specs::Parts::crossed))]
pub fn crossed(
    alloc: Global,
    done: Option<Boxed<BoundSource>>,
    f: FromRows,
) -> Result<FromRows, AllocError>
    ensures { IfOk result (λ r. r ≡ spec.crossed done f) }
{
    match done {
        None => Ok(f),
        Some(source) => {
            let FromRows {
                source: right,
                columns,
            } = f;
            let source = Boxed::new(alloc, BoundSource::Cross(source, right))?;
            Ok(FromRows { source, columns })
        }
    }
}

/// The columns from a place on.
pub fn columns_from(columns: &[ScopeColumn], start: usize) -> &[ScopeColumn]
    ensures { result.now ≡ drop start columns.now }
{
    if start <= columns.len() {
        &columns[start..]
    } else {
        &[]
    }
}

/// An item that is to be joined to those before it.
#[tactic(auto, unfolding(crate::specs::Parts::joining))]
pub fn begin_join(done: FromRows, o: FromRows) -> Result<Joining, AllocError>
    ensures { IfOk result (λ j. j ≡ spec.joining done o) }
{
    let FromRows {
        source,
        mut columns,
    } = done;
    let width = narrow(o.columns.len())?;
    columns.append(o.columns)?;
    Ok(Joining {
        left: source,
        right: o.source,
        width,
        columns,
    })
}

/// A join.
#[tactic(auto, unfolding(crate::specs::Parts::joined_rows))]
pub fn joined_rows(
    alloc: Global,
    kind: JoinKind,
    j: Joining,
    on: BoundExpr,
) -> Result<FromRows, AllocError>
    ensures { IfOk result (λ f. f ≡ spec.joined_rows kind j on) }
{
    let Joining {
        left,
        right,
        width,
        columns,
    } = j;
    let source = match kind {
        JoinKind::Inner => BoundSource::Inner(left, right, on),
        JoinKind::LeftOuter => BoundSource::Outer(left, right, width, on),
    };
    let source = Boxed::new(alloc, source)?;
    Ok(FromRows { source, columns })
}

/// The whole FROM list.
#[tactic(auto, unfolding(crate::specs::Parts::present))]
pub fn present(done: Option<FromRows>) -> Result<FromRows, BindFault>
    ensures { Gives (spec.present done) result }
{
    match done {
        Some(f) => Ok(f),
        None => Err(BindFault::Refused(BindRefusal::UnknownTable)),
    }
}
