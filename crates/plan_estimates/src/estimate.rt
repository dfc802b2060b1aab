//! About how many rows trees have, and how many of them conditions keep. The plan serves every
//! version of the tables, so a table counts as at scale factor 1: only the proportions matter.
//! Any order of joins is right, and a domain may be kept or left out, so no clause speaks of an
//! estimate.
use base_schema::{ColumnKind, TableName};
use base_set_rows::SetOperation;
use expr_scalar::{Comparison, Expr};
use plan_algebra::{DepTree, KeptPlan, Side, width};
use sqlite_items::{Boxed, at};

// How many values a column is taken to have of which nothing is known.
const UNKNOWN_VALUES: u64 = 10;

// Rows are few where a column has so many values for each of them.
const FEW: u64 = 10;

/// What an expression reads: after the columns of a domain row, as many as are named here, those of
/// a tree, or of several ones after the other.
#[derive(Clone, Copy)]
pub enum Sight<'a> {
    Tree(u32, &'a DepTree),
    Inputs(u32, &'a [DepTree]),
}

// A table's column.
#[derive(Clone, Copy)]
struct Source {
    table: TableName,
    column: u32,
}

// How many rows a table has.
fn rows_of_table(table: TableName) -> u64 {
    match table {
        TableName::Region => 5,
        TableName::Nation => 25,
        TableName::Supplier => 10_000,
        TableName::Customer => 150_000,
        TableName::Part => 200_000,
        TableName::Partsupp => 800_000,
        TableName::Orders => 1_500_000,
        TableName::Lineitem => 6_000_000,
    }
}

// How many values a table's column has.
fn values_of(source: Source) -> u64 {
    let column = source.column;
    match source.table {
        TableName::Region => 5,
        TableName::Nation => nation_values(column),
        TableName::Supplier => supplier_values(column),
        TableName::Customer => customer_values(column),
        TableName::Part => part_values(column),
        TableName::Partsupp => partsupp_values(column),
        TableName::Orders => orders_values(column),
        TableName::Lineitem => lineitem_values(column),
    }
}

fn nation_values(column: u32) -> u64 {
    match column {
        2 => 5,
        _ => 25,
    }
}

fn supplier_values(column: u32) -> u64 {
    match column {
        3 => 25,
        _ => 10_000,
    }
}

fn customer_values(column: u32) -> u64 {
    match column {
        3 => 25,
        6 => 5,
        _ => 150_000,
    }
}

fn part_values(column: u32) -> u64 {
    match column {
        2 => 5,
        3 => 25,
        4 => 150,
        5 => 50,
        6 => 40,
        _ => 200_000,
    }
}

fn partsupp_values(column: u32) -> u64 {
    match column {
        0 => 200_000,
        1 | 2 => 10_000,
        3 => 100_000,
        _ => 800_000,
    }
}

fn orders_values(column: u32) -> u64 {
    match column {
        1 => 100_000,
        2 => 3,
        4 => 2_400,
        5 => 5,
        6 => 1_000,
        7 => 1,
        _ => 1_500_000,
    }
}

fn lineitem_values(column: u32) -> u64 {
    match column {
        0 => 1_500_000,
        1 => 200_000,
        2 => 10_000,
        3 | 14 => 7,
        4 => 50,
        6 => 11,
        7 => 9,
        8 => 3,
        9 => 2,
        10 | 11 | 12 => 2_500,
        13 => 4,
        _ => 1_000_000,
    }
}

// The column of a table that a kept view shows unchanged at a place: one of its GROUP BY columns.
fn kept_source(plan: &KeptPlan, place: u32) -> Option<Source> {
    let shown = *at(plan.list.as_slice(), place as usize)?;
    let column = *at(plan.by.as_slice(), shown as usize)?;
    Some(Source {
        table: plan.table,
        column,
    })
}

// How many rows a kept view has.
fn rows_of_kept(plan: &KeptPlan) -> u64 {
    let mut groups: u64 = 1;
    for column in plan.by.as_slice() {
        groups = groups.saturating_mul(values_of(Source {
            table: plan.table,
            column: *column,
        }));
    }
    groups.min(rows_of_table(plan.table))
}

// The column of a table that a tree, over a domain row of n columns, shows unchanged at a place.
fn source_of(tree: &DepTree, n: u32, place: u32) -> Option<Source> {
    match tree {
        DepTree::Scan(table) => Some(Source {
            table: *table,
            column: place,
        }),
        DepTree::Select(t, _)
        | DepTree::Distinct(t)
        | DepTree::Mark(t, _, _, _)
        | DepTree::Single(t, _, _, _) => source_of(t.get(), n, place),
        DepTree::Set(_, _, _) => None,
        DepTree::Kept(_, plan) => kept_source(plan.get(), place),
        DepTree::Project(t, es) => {
            let place = own_place(column_of(at(es.as_slice(), place as usize)?)?, n)?;
            source_of(t.get(), n, place)
        }
        DepTree::Group(t, by, _) => {
            let place = own_place(*at(by.as_slice(), place as usize)?, n)?;
            source_of(t.get(), n, place)
        }
        DepTree::Join(l, r, side, _) | DepTree::Outer(l, r, side, _) => {
            let wide = wide_of(l.get());
            match place.checked_sub(wide) {
                Some(place) => source_of(r.get(), right_domain(n, side), place),
                None => source_of(l.get(), n, place),
            }
        }
    }
}

// Whether a column is a whole number out of a table.
fn is_key(source: Source) -> bool {
    matches!(
        at(source.table.kinds(), source.column as usize),
        Some(ColumnKind::Key) | Some(ColumnKind::Whole)
    )
}

/// Whether a column of what is read is known to be a whole number out of a table.
pub fn is_key_at(sight: &Sight, place: u32) -> bool {
    match source_at(sight, place) {
        Some(source) => is_key(source),
        None => false,
    }
}

/// Whether the rows of a tree, over a domain row of n columns, are few beside the values of one of
/// these columns of theirs.
pub fn have_few(n: u32, tree: &DepTree, columns: &[u32]) -> bool {
    let rows = rows_of(tree, n);
    let sight = Sight::Tree(n, tree);
    for column in columns {
        if rows <= values_at(*column, &sight) / FEW {
            return true;
        }
    }
    false
}

/// Whether each column of a right side's domain row is known to be a whole number out of a table,
/// by the left side and by what is known of the left side's domain row of n columns.
pub fn are_keys(n: u32, keyed: bool, left: &Boxed<DepTree>, side: &Side) -> bool {
    let Side::Dependent(columns) = side else {
        return keyed;
    };
    let sight = Sight::Tree(n, left.get());
    for column in columns.as_slice() {
        let known = if *column < n {
            keyed
        } else {
            is_key_at(&sight, *column)
        };
        if !known {
            return false;
        }
    }
    true
}

// A tree's width, or 0 where that isn't known.
fn wide_of(tree: &DepTree) -> u32 {
    match width(tree) {
        Ok(wide) => wide,
        Err(_) => 0,
    }
}

// How many columns the domain row of a right side has.
fn right_domain(n: u32, side: &Side) -> u32 {
    match side {
        Side::Closed => 0,
        Side::Shared => n,
        Side::Dependent(columns) => match u32::try_from(columns.len()) {
            Ok(count) => count,
            Err(_) => 0,
        },
    }
}

// A place without the domain's n columns before it.
fn own_place(place: u32, n: u32) -> Option<u32> {
    place.checked_sub(n)
}

// The place that an expression is, if it is a column.
fn column_of(e: &Expr) -> Option<u32> {
    match e {
        Expr::Column(place) => Some(*place),
        _ => None,
    }
}

// The column of a table that stands at a place of what is read.
fn source_at(sight: &Sight, place: u32) -> Option<Source> {
    match sight {
        Sight::Tree(n, tree) => {
            let place = own_place(place, *n)?;
            source_of(tree, *n, place)
        }
        Sight::Inputs(n, inputs) => {
            let place = own_place(place, *n)?;
            source_among(inputs, *n, place)
        }
    }
}

// The same of inputs, one after the other.
fn source_among(inputs: &[DepTree], n: u32, place: u32) -> Option<Source> {
    let mut left = place;
    for input in inputs {
        match left.checked_sub(wide_of(input)) {
            Some(rest) => left = rest,
            None => return source_of(input, n, left),
        }
    }
    None
}

// How many values an expression has.
fn values_in(e: &Expr, sight: &Sight) -> u64 {
    match e {
        Expr::Literal(_) => 1,
        Expr::Column(place) => values_at(*place, sight),
        _ => UNKNOWN_VALUES,
    }
}

// How many values a column has.
fn values_at(place: u32, sight: &Sight) -> u64 {
    match source_at(sight, place) {
        Some(source) => values_of(source),
        None => UNKNOWN_VALUES,
    }
}

/// The quotient; by 0 the number itself.
pub fn divided(rows: u64, by: u64) -> u64 {
    if by == 0 { rows } else { rows / by }
}

/// The columns that a condition says to be equal.
pub fn equated(e: &Expr) -> Option<(u32, u32)> {
    match e {
        Expr::Compare(Comparison::Equal, a, b) => match (a.get(), b.get()) {
            (Expr::Column(i), Expr::Column(j)) => Some((*i, *j)),
            _ => None,
        },
        _ => None,
    }
}

/// Of how many rows a condition over several inputs keeps one.
pub fn rows_for_one(e: &Expr, sight: &Sight) -> u64 {
    match equated(e) {
        Some((i, j)) => values_at(i, sight).max(values_at(j, sight)),
        None => 3,
    }
}

// How many of some rows a comparison keeps.
fn kept_by_comparison(rows: u64, comparison: Comparison, a: &Expr, b: &Expr, sight: &Sight) -> u64 {
    match comparison {
        Comparison::Equal => {
            let values = values_in(a, sight).max(values_in(b, sight));
            divided(rows, values)
        }
        Comparison::NotEqual => rows,
        _ => match (a, b) {
            (Expr::Column(_), Expr::Column(_)) => rows / 2,
            _ => rows / 3,
        },
    }
}

/// How many of some rows a condition keeps.
#[cycle(kept)]
pub fn kept_of(rows: u64, e: &Expr, sight: &Sight) -> u64 {
    match e {
        Expr::Compare(comparison, a, b) => {
            kept_by_comparison(rows, *comparison, a.get(), b.get(), sight)
        }
        Expr::Between(_, _, _) => rows / 4,
        Expr::Like(_, _) | Expr::IsNull(_) => rows / 10,
        Expr::InList(v, es) => {
            let of_one = divided(rows, values_in(v.get(), sight));
            of_one.saturating_mul(es.len() as u64).min(rows)
        }
        Expr::Not(e) => rows.saturating_sub(kept_of(rows, e.get(), sight)),
        Expr::All(es) => kept_by_all(rows, es.as_slice(), sight),
        Expr::Any(es) => kept_by_any(rows, es.as_slice(), sight).min(rows),
        _ => rows / 2,
    }
}

// How many of some rows all conditions keep.
#[cycle(kept)]
fn kept_by_all(rows: u64, es: &[Expr], sight: &Sight) -> u64 {
    let mut kept = rows;
    for e in es {
        kept = kept_of(kept, e, sight);
    }
    kept
}

// How many of some rows the conditions keep, one by one.
#[cycle(kept)]
fn kept_by_any(rows: u64, es: &[Expr], sight: &Sight) -> u64 {
    let mut kept: u64 = 0;
    for e in es {
        kept = kept.saturating_add(kept_of(rows, e, sight));
    }
    kept
}

// How many groups some rows have.
fn groups_of(rows: u64, by: &[u32], sight: &Sight) -> u64 {
    let mut groups: u64 = 1;
    for place in by {
        groups = groups.saturating_mul(values_at(*place, sight));
    }
    groups.min(rows)
}

/// How many rows a tree has, over a domain row of n columns: one at least.
pub fn rows_of(tree: &DepTree, n: u32) -> u64 {
    match tree {
        DepTree::Scan(table) => rows_of_table(*table),
        DepTree::Kept(_, plan) => rows_of_kept(plan.get()),
        DepTree::Select(t, c) => {
            let rows = rows_of(t.get(), n);
            kept_of(rows, c.get(), &Sight::Tree(n, t.get())).max(1)
        }
        DepTree::Project(t, _)
        | DepTree::Distinct(t)
        | DepTree::Mark(t, _, _, _)
        | DepTree::Single(t, _, _, _)
        | DepTree::Set(t, _, SetOperation::Classes(_, _)) => rows_of(t.get(), n),
        DepTree::Set(l, r, SetOperation::Union) => {
            rows_of(l.get(), n).saturating_add(rows_of(r.get(), n))
        }
        DepTree::Join(l, r, side, on) => {
            let left = rows_of(l.get(), n);
            let right = rows_of(r.get(), right_domain(n, side));
            kept_of(left.saturating_mul(right), on.get(), &Sight::Tree(n, tree)).max(1)
        }
        DepTree::Outer(l, r, side, on) => {
            let left = rows_of(l.get(), n);
            let right = rows_of(r.get(), right_domain(n, side));
            kept_of(left.saturating_mul(right), on.get(), &Sight::Tree(n, tree)).max(left)
        }
        DepTree::Group(t, by, _) => {
            let rows = rows_of(t.get(), n);
            groups_of(rows, by.as_slice(), &Sight::Tree(n, t.get()))
        }
    }
}

// What it costs to copy a column: a text of more than one byte counts more.
fn weight_at(tree: &DepTree, n: u32, place: u32) -> u64 {
    match source_of(tree, n, place) {
        Some(source) => match at(source.table.kinds(), source.column as usize) {
            Some(ColumnKind::Text(most)) if *most > 1 => 6,
            _ => 1,
        },
        None => 1,
    }
}

/// What it costs to copy a row of a tree.
pub fn weight_of(tree: &DepTree, n: u32) -> u64 {
    let mut weight: u64 = 0;
    for place in 0..wide_of(tree) {
        weight = weight.saturating_add(weight_at(tree, n, place));
    }
    weight
}
