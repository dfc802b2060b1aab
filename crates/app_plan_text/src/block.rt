//! A bound query that is being shown: the lines of its clauses, and the names in sight.
use crate::expr::push_expr;
use crate::names::{NameList, Names, Row};
use crate::node::operation_words;
use crate::numbering::{Numbering, put_columns};
use crate::page::Page;
use crate::row_writer::RowWriter;
use crate::writer::{Piece, TextWriter};
use base_schema::TableName;
use base_set_rows::SetOperation;
use expr_scalar::Expr;
use sql_bound_query::SetColumn;
use std::alloc::Global;

/// A bound query that was shown.
pub struct ShownQuery {
    /// Its number.
    pub number: usize,
    /// The names of its columns.
    pub columns: Names,
}

// By hand, so that each place that drops one makes one call.
impl Drop for ShownQuery {
    #[inline]
    fn drop(self) {
        let ShownQuery { number: _, columns } = self;
        drop(columns);
    }
}

impl ShownQuery {
    /// Appends the names of its columns to others.
    pub fn give_columns(self, names: &mut NameList) {
        let ShownQuery { number: _, columns } = self;
        names.give_all(columns);
    }
}

/// The number of a query that is being shown, and where the lines of its clauses go, which stand
/// before those of the queries in it.
#[derive(Clone, Copy)]
pub struct Block {
    /// The number.
    pub number: usize,
    // Where its first line stands.
    first: usize,
    // Where the next clause goes.
    next: usize,
}

impl Block {
    /// A query of this number whose lines stand from a place on.
    pub fn of(number: usize, place: usize) -> Block {
        Block {
            number,
            first: place,
            next: place,
        }
    }

    /// A query of the next number, behind the lines so far.
    pub fn begun(page: &mut Page) -> Block {
        Block::of(page.numbering.number(), page.end())
    }

    /// The same, the next clause before all others.
    pub fn at_first(self) -> Block {
        Block::of(self.number, self.first)
    }
}

/// Puts the line of a clause.
pub fn put_clause(
    alloc: Global,
    page: &mut Page,
    block: &mut Block,
    kind: &[u8],
    detail: TextWriter,
) {
    let row = RowWriter {
        detail,
        columns: NameList::new(alloc),
    };
    let line = row.line(alloc, block.number, page.depth, kind, &[], None);
    page.put(block.next, line);
    block.next = block.next.saturating_add(1);
}

/// Ends a query: the line of SELECT before the other clauses. Its rows are out of sight.
pub fn end_select(alloc: Global, page: &mut Page, block: Block, list: RowWriter) -> ShownQuery {
    let RowWriter { detail, columns } = list;
    put_clause(alloc, page, &mut block.at_first(), b"select", detail);
    page.leave();
    ShownQuery {
        number: block.number,
        columns: page.names(alloc, columns.finish()),
    }
}

/// Appends a table to FROM, under another name where it stands more than once.
pub fn put_table(alloc: Global, numbering: &mut Numbering, from: &mut RowWriter, table: TableName) {
    let scan = numbering.scan(table);
    let name = Piece::Text(table.name().as_bytes());
    match scan {
        None => from.detail.put_all(&[name]),
        Some(number) => {
            let again = [name, Piece::Text(b" "), name, Piece::Number(number)];
            from.detail.put_all(&again);
        }
    }
    put_columns(alloc, &mut from.columns, table, scan);
}

/// Appends the query of one side of a set operation, and what is taken of its rows:
/// `q2 (n_name, n_comment)`.
fn push_taken(text: &mut TextWriter, side: &ShownQuery, all: &[SetColumn], is_left: bool) {
    text.put_all(&[
        Piece::Text(b"q"),
        Piece::Number(side.number),
        Piece::Text(b" ("),
    ]);
    let row = Row::of(side.columns.as_slice());
    for (place, column) in all.iter().enumerate() {
        if place > 0 {
            text.put(b", ");
        }
        let e = if is_left { &column.left } else { &column.right };
        push_expr(text, &row, e);
    }
    text.put_byte(b')');
}

/// The names of the columns of the set operation of this number: those of its left side, where they
/// are columns there.
fn set_names(alloc: Global, number: usize, left: &[Vec<u8>], all: &[SetColumn]) -> NameList {
    let mut columns = NameList::new(alloc);
    let row = Row::of(left);
    for (place, column) in all.iter().enumerate() {
        if let Expr::Column(at) = &column.left {
            columns.put(alloc, row.name(*at));
        } else {
            let name = [
                Piece::Text(b"q"),
                Piece::Number(number),
                Piece::Text(b".c"),
                Piece::Number(place),
            ];
            columns.put_made(alloc, &name);
        }
    }
    columns
}

/// Ends a set operation of two queries that were shown: its line says what it takes of each side.
pub fn end_set(
    alloc: Global,
    page: &mut Page,
    block: Block,
    left: ShownQuery,
    right: ShownQuery,
    all: &[SetColumn],
    operation: SetOperation,
) -> ShownQuery {
    let mut text = TextWriter::new(alloc);
    push_taken(&mut text, &left, all, true);
    text.put(b" and ");
    push_taken(&mut text, &right, all, false);
    let kind = operation_words(operation).as_bytes();
    put_clause(alloc, page, &mut block.at_first(), kind, text);
    let columns = set_names(alloc, block.number, left.columns.as_slice(), all);
    ShownQuery {
        number: block.number,
        columns: page.names(alloc, columns.finish()),
    }
}
