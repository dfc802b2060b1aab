//! Which columns of a plan's nodes come unchanged from a table, and whether they may be null.
ghost use Rattle.std.specs.Prelude.{◌≡◌, ◌+◌, ◌<◌, ◌++◌, length, map, replicate, None};
ghost use Rattle.std.specs.Prelude.{slice_index_or};
ghost use Rattle.std.specs.Prelude.{nat_lt, IfOk, OnOk, IsTrue};
ghost use Rattle.std.specs.List.{list_all};
ghost use Rattle.base_schema.specs.Tables.{columns_of};
ghost use Rattle.plan_algebra.specs.Plans.{inputs_of, is_formed};
ghost use Rattle.plan_unnested_nodes.specs.PlanKinds.{known_as, nullable, kinds_at, picked, has_matched};
ghost use Rattle.plan_unnested_nodes.specs.PlanKinds.{IsListed, AreListed, AreMade, AreKindsOfFirst};
ghost use Rattle.plan_unnested_nodes.specs.PlanKinds.{AreOrigins, AreNotesOf, AreKindsOf};

use crate::domain::Origin;
use crate::own_columns::stored_kind;
use base_schema::{LineColumn, TableName};
use expr_scalar::{Expr, Kind};
use plan_algebra::{Node, NodeId};
use sqlite_items::{Items, at};
use std::alloc::{AllocError, Global};

/// What is known of a column that comes unchanged from a table.
#[derive(Clone, Copy)]
pub(crate) struct Known {
    /// The kind of its values.
    pub(crate) kind: Kind,
    /// Whether it may be null.
    pub(crate) may_be_null: bool,
}

// Notes of those of a node's columns that come unchanged from a table. The i-th note is of the i-th
// of these columns.
#[tactic(auto, using(crate::proofs::KindNodes::origins_are))]
pub(crate) fn origins(
    alloc: Global,
    nodes: &[Node],
    id: NodeId,
    columns: &[u32],
) -> Result<Items<Origin>, AllocError>
    requires formed { IsTrue (is_formed nodes.now) }
    requires id { id < length nodes.now }
    ensures { IfOk result (AreOrigins nodes.now id columns.now) }
{
    let kinds = plan_kinds(alloc, nodes)?;
    let notes = notes_of(alloc, kinds_at(kinds.as_slice(), id), columns)?;
    Ok(notes)
}

/// The kinds of the columns of one node.
#[tactic(auto, using(crate::proofs::KindNodes::column_kinds_are))]
pub(crate) fn column_kinds(
    alloc: Global,
    nodes: &[Node],
    id: NodeId,
) -> Result<Items<Option<Known>>, AllocError>
    requires formed { IsTrue (is_formed nodes.now) }
    requires id { id < length nodes.now }
    ensures { IfOk result (AreKindsOf nodes.now id) }
{
    let kinds = plan_kinds(alloc, nodes)?;
    let own = Items::from_slice(alloc, kinds_at(kinds.as_slice(), id))?;
    Ok(own)
}

// Notes of these columns, as far as their kinds are known.
fn notes_of(
    alloc: Global,
    kinds: &[Option<Known>],
    columns: &[u32],
) -> Result<Items<Origin>, AllocError>
    ensures { IfOk result (AreNotesOf kinds.now columns.now) }
{
    let mut notes = Items::new(alloc);
    for i in 0..columns.len() {
        put_note(&mut notes, kinds, columns, i)?;
    }
    Ok(notes)
}

// Puts a note of the i-th of these columns after the others, where its kind is known.
fn put_note(
    notes: &mut Items<Origin>,
    kinds: &[Option<Known>],
    columns: &[u32],
    i: usize,
) -> Result<(), AllocError>
    requires within { i < length columns.now }
    requires notes { AreNotesOf kinds.now columns.now notes.old }
    ensures { OnOk result (AreNotesOf kinds.now columns.now notes.new) }
{
    let Some(known) = known_at(kinds, columns[i]) else {
        return Ok(());
    };
    let column = u32::try_from(i).map_err(|_| AllocError)?;
    let kind = known.kind;
    notes.push(Origin { column, kind })?;
    Ok(())
}

/// The kind of a column, where it is there and known.
pub(crate) fn known_at(kinds: &[Option<Known>], column: u32) -> Option<Known>
    ensures { result ≡ slice_index_or kinds.now column None }
{
    match at(kinds, column as usize) {
        Some(known) => *known,
        None => None,
    }
}

// The kinds of the columns of each node.
fn plan_kinds(alloc: Global, nodes: &[Node]) -> Result<Vec<Items<Option<Known>>>, AllocError>
    requires { IsTrue (is_formed nodes.now) }
    ensures { IfOk result (λ kinds. AreKindsOfFirst nodes.now (length nodes.now) kinds.items) }
{
    let mut kinds = Vec::with_capacity(alloc, nodes.len())?;
    for i in 0..nodes.len() {
        put_kinds(alloc, nodes, i, &mut kinds)?;
    }
    Ok(kinds)
}

// Puts the kinds of the columns of one node more.
fn put_kinds(
    alloc: Global,
    nodes: &[Node],
    i: usize,
    kinds: &mut Vec<Items<Option<Known>>>,
) -> Result<(), AllocError>
    requires formed { IsTrue (is_formed nodes.now) }
    requires within { i < length nodes.now }
    requires kinds { AreKindsOfFirst nodes.now i kinds.old.items }
    ensures { OnOk result (AreKindsOfFirst nodes.now (i + 1) kinds.new.items) }
{
    let own = node_kinds(alloc, &nodes[i], kinds.as_slice())?;
    kinds.push(own)?;
    Ok(())
}

// Those of a node, from those of the nodes before it.
fn node_kinds(
    alloc: Global,
    node: &Node,
    kinds: &[Items<Option<Known>>],
) -> Result<Items<Option<Known>>, AllocError>
    requires inputs { IsTrue (list_all (λ i. nat_lt i (length kinds.now)) (inputs_of node.now)) }
    requires matched { IsTrue (has_matched kinds.now node.now) }
    ensures { IfOk result (AreMade kinds.now node.now) }
{
    match node {
        Node::Scan(table) => {
            let own = known_kinds(alloc, *table)?;
            Ok(own)
        }
        Node::Select(rows, _) | Node::Distinct(rows) => {
            let own = Items::from_slice(alloc, kinds_at(kinds, *rows))?;
            Ok(own)
        }
        Node::Project(rows, es) => {
            let own = listed_kinds(alloc, kinds_at(kinds, *rows), es.as_slice())?;
            Ok(own)
        }
        Node::Domain(rows, columns) => {
            let own = picked_kinds(alloc, kinds_at(kinds, *rows), columns.as_slice())?;
            Ok(own)
        }
        Node::Group(rows, by, aggregates) => {
            let keys = picked_kinds(alloc, kinds_at(kinds, *rows), by.as_slice())?;
            let own = padded_kinds(alloc, keys.as_slice(), aggregates.len())?;
            Ok(own)
        }
        Node::Join(left, right, matched, _) => {
            let rest = &kinds_at(kinds, *right)[matched.len()..];
            let own = joined_kinds(alloc, kinds_at(kinds, *left), rest)?;
            Ok(own)
        }
        Node::Outer(left, right, matched, _, _) => {
            let rest = &kinds_at(kinds, *right)[matched.len()..];
            let filled = nullable_kinds(alloc, rest)?;
            let own = joined_kinds(alloc, kinds_at(kinds, *left), filled.as_slice())?;
            Ok(own)
        }
        Node::Mark(left, _, _, _) | Node::Single(left, _, _, _) => {
            let own = padded_kinds(alloc, kinds_at(kinds, *left), 1)?;
            Ok(own)
        }
        Node::Set(left, _, _) => {
            let own = unknown_kinds(alloc, kinds_at(kinds, *left).len())?;
            Ok(own)
        }
        Node::Fill(_, rows, empty) => {
            let filled = unknown_kinds(alloc, kinds_at(kinds, *rows).len())?;
            let own = padded_kinds(alloc, filled.as_slice(), empty.len())?;
            Ok(own)
        }
        Node::Kept(_, plan) => {
            let own = unknown_kinds(alloc, plan.get().list.len())?;
            Ok(own)
        }
    }
}

// The kinds of the columns of the node of this number.
fn kinds_at(kinds: &[Items<Option<Known>>], id: NodeId) -> &[Option<Known>]
    requires { id < length kinds.now }
    ensures { result.now ≡ kinds_at kinds.now id }
{
    kinds[id].as_slice()
}

/// What is known of a table's columns.
pub(crate) fn known_kinds(
    alloc: Global,
    table: TableName,
) -> Result<Items<Option<Known>>, AllocError>
    ensures { IfOk result (λ own. own ≡ map known_as (columns_of table)) }
{
    let columns = table.columns(alloc)?;
    let own = stored_kinds(alloc, columns.as_slice())?;
    Ok(own)
}

// What is known of stored columns.
fn stored_kinds(alloc: Global, columns: &[LineColumn]) -> Result<Items<Option<Known>>, AllocError>
    ensures { IfOk result (λ own. own ≡ map known_as columns.now) }
{
    let mut own = Items::new(alloc);
    for column in columns {
        let kind = stored_kind(column.kind);
        let may_be_null = column.nullable;
        own.push(Some(Known { kind, may_be_null }))?;
    }
    Ok(own)
}

// The same of a column that may be null, whatever it was before.
fn as_nullable(known: Option<Known>) -> Option<Known>
    ensures { result ≡ nullable known }
{
    match known {
        Some(known) => Some(Known {
            kind: known.kind,
            may_be_null: true,
        }),
        None => None,
    }
}

// The kinds of columns that may be null.
fn nullable_kinds(
    alloc: Global,
    kinds: &[Option<Known>],
) -> Result<Items<Option<Known>>, AllocError>
    ensures { IfOk result (λ own. own ≡ map nullable kinds.now) }
{
    let mut own = Items::new(alloc);
    for known in kinds {
        own.push(as_nullable(*known))?;
    }
    Ok(own)
}

// The kind of an expression's values, where it is a column.
fn listed_kind(kinds: &[Option<Known>], e: &Expr) -> Option<Known>
    ensures { IsListed kinds.now e.now result }
{
    match e {
        Expr::Column(column) => known_at(kinds, *column),
        _ => None,
    }
}

// The kinds of a select list.
fn listed_kinds(
    alloc: Global,
    kinds: &[Option<Known>],
    es: &[Expr],
) -> Result<Items<Option<Known>>, AllocError>
    ensures { IfOk result (AreListed kinds.now es.now) }
{
    let mut own = Items::new(alloc);
    for e in es {
        own.push(listed_kind(kinds, e))?;
    }
    Ok(own)
}

/// As many columns of unknown kinds.
pub(crate) fn unknown_kinds(alloc: Global, count: usize) -> Result<Items<Option<Known>>, AllocError>
    ensures { IfOk result (λ own. own ≡ replicate count None) }
{
    let own = padded_kinds(alloc, &[], count)?;
    Ok(own)
}

// The kinds of these columns.
fn picked_kinds(
    alloc: Global,
    kinds: &[Option<Known>],
    columns: &[u32],
) -> Result<Items<Option<Known>>, AllocError>
    ensures { IfOk result (λ own. own ≡ picked kinds.now columns.now) }
{
    let mut own = Items::new(alloc);
    for column in columns {
        own.push(known_at(kinds, *column))?;
    }
    Ok(own)
}

/// The kinds of two rows beside one another.
pub(crate) fn joined_kinds(
    alloc: Global,
    left: &[Option<Known>],
    right: &[Option<Known>],
) -> Result<Items<Option<Known>>, AllocError>
    ensures { IfOk result (λ own. own ≡ left.now ++ right.now) }
{
    let mut own = Items::from_slice(alloc, left)?;
    let more = Items::from_slice(alloc, right)?;
    own.append(more)?;
    Ok(own)
}

// These kinds, and `more` unknown ones after them.
fn padded_kinds(
    alloc: Global,
    kinds: &[Option<Known>],
    more: usize,
) -> Result<Items<Option<Known>>, AllocError>
    ensures { IfOk result (λ own. own ≡ kinds.now ++ replicate more None) }
{
    let mut own = Items::from_slice(alloc, kinds)?;
    for _i in 0..more {
        own.push(None)?;
    }
    Ok(own)
}
