//! What the nodes of trees and of flat plans have in common: lists of expressions, groups, joins.
ghost use Rattle.std.specs.Prelude.{◌≡◌};
ghost use Rattle.app_plan_text.specs.Lines.{operation_words};

use crate::expr::{push_aggregate, push_expr};
use crate::names::Row;
use crate::numbering::{Numbering, put_columns};
use crate::row_writer::RowWriter;
use crate::writer::Piece;
use base_schema::TableName;
use base_set_rows::{ClassKind, SetOperation};
use expr_scalar::Expr;
use plan_algebra::{Aggregate, KeptPlan};
use std::alloc::Global;

/// The words for a set operation.
pub fn operation_words(operation: SetOperation) -> &'static str
    ensures { result.now ≡ operation_words operation }
{
    match operation {
        SetOperation::Union => "union all",
        SetOperation::Classes(ClassKind::Intersect, false) => "intersect",
        SetOperation::Classes(ClassKind::Intersect, true) => "intersect all",
        SetOperation::Classes(ClassKind::Except, false) => "except",
        SetOperation::Classes(ClassKind::Except, true) => "except all",
    }
}

/// Puts the next scan of a table: its name, with its number where there are others, and its
/// columns.
pub fn put_scan(alloc: Global, to: &mut RowWriter, numbering: &mut Numbering, table: TableName) {
    let scan = numbering.scan(table);
    to.detail.put(table.name().as_bytes());
    if let Some(number) = scan {
        to.detail.put_number(number);
    }
    put_columns(alloc, &mut to.columns, table, scan);
}

/// Puts a kept view: its number, and the names of its columns: `view0.1`.
pub fn put_kept(alloc: Global, to: &mut RowWriter, number: u32, plan: &KeptPlan) {
    let number = number as usize;
    let view = [Piece::Text(b"view"), Piece::Number(number)];
    to.detail.put_all(&view);
    for place in 0..plan.list.len() {
        let [first, second] = view;
        let name = [first, second, Piece::Text(b"."), Piece::Number(place)];
        to.columns.put_made(alloc, &name);
    }
}

/// Puts the columns of a row, and a condition over it.
pub fn put_selection(alloc: Global, to: &mut RowWriter, row: &Row<'_>, c: &Expr) {
    to.columns.put_all(alloc, row.left);
    push_expr(&mut to.detail, row, c);
}

/// Puts a select list: a column keeps its name, and anything else is named after the node.
pub fn put_list(alloc: Global, to: &mut RowWriter, number: usize, row: &Row<'_>, es: &[Expr]) {
    for (place, e) in es.iter().enumerate() {
        to.put_comma();
        if let Expr::Column(at) = e {
            to.put_name(alloc, row.name(*at));
        } else {
            to.put_computed(alloc, b"n", number, b".c", place);
            push_expr(&mut to.detail, row, e);
        }
    }
}

/// Puts groups by the columns at these places of a row, with aggregates over such rows.
pub fn put_groups(
    alloc: Global,
    to: &mut RowWriter,
    number: usize,
    row: &Row<'_>,
    by: &[u32],
    aggregates: &[Aggregate],
) {
    to.put_places(alloc, row, by, b"by ");
    for (place, aggregate) in aggregates.iter().enumerate() {
        to.put_comma();
        to.put_computed(alloc, b"n", number, b".c", by.len().saturating_add(place));
        push_aggregate(&mut to.detail, row, aggregate);
    }
}

/// Puts a join: the columns of both sides, and its condition over the row.
pub fn put_join(alloc: Global, to: &mut RowWriter, row: &Row<'_>, c: &Expr) {
    to.columns.put_all(alloc, row.left);
    to.columns.put_all(alloc, row.right);
    to.detail.put(b"on ");
    push_expr(&mut to.detail, row, c);
}

/// Puts a mark: the columns of the left side, its own one, and its condition over the row.
pub fn put_mark(alloc: Global, to: &mut RowWriter, number: usize, row: &Row<'_>, c: &Expr) {
    to.columns.put_all(alloc, row.left);
    to.put_worded(alloc, number, b".mark");
    to.detail.put(b" = some row with ");
    push_expr(&mut to.detail, row, c);
}

/// Puts a scalar subquery: the columns of the left side, its own one, and what that takes.
pub fn put_single(alloc: Global, to: &mut RowWriter, number: usize, row: &Row<'_>, column: u32) {
    to.columns.put_all(alloc, row.left);
    to.put_worded(alloc, number, b".value");
    to.detail.put(b" = the one ");
    to.detail.put(Row::of(row.right).name(column));
}
