//! A line while it is written: its text and the names of its columns.
ghost use Rattle.std.specs.Prelude.{◌≡◌, IfOk};

use crate::line::PlanLine;
use crate::names::{NameList, Row};
use crate::writer::{Piece, TextWriter};
use std::alloc::{AllocError, Global};

/// A text about rows, and the names of their columns, while they are written.
#[derive(Drop)]
pub struct RowWriter {
    /// The text.
    pub detail: TextWriter,
    /// The names of the columns.
    pub columns: NameList,
}

impl RowWriter {
    /// No text and no columns.
    pub fn new(alloc: Global) -> RowWriter {
        RowWriter {
            detail: TextWriter::new(alloc),
            columns: NameList::new(alloc),
        }
    }

    /// Writes a comma, unless nothing was written so far.
    pub fn put_comma(&mut self) {
        if !self.detail.is_empty() {
            self.detail.put(b", ");
        }
    }

    /// Appends a column of this name, and writes the name.
    pub fn put_name(&mut self, alloc: Global, name: &[u8]) {
        self.detail.put(name);
        self.columns.put(alloc, name);
    }

    /// Appends a column of a name of these pieces, and writes the name.
    fn put_made(&mut self, alloc: Global, name: &[Piece<'_>]) {
        self.detail.put_all(name);
        self.columns.put_made(alloc, name);
    }

    /// Appends the column that a node or a query of this number computes, by a word, and writes its
    /// name: `n7.mark`.
    pub fn put_worded(&mut self, alloc: Global, number: usize, word: &[u8]) {
        let name = [Piece::Text(b"n"), Piece::Number(number), Piece::Text(word)];
        self.put_made(alloc, &name);
    }

    /// Appends the column of this place that a node or a query of this number computes, and writes
    /// its name and a sign behind it: `n7.c2 = `.
    pub fn put_computed<'x>(
        &mut self,
        alloc: Global,
        before: &'x [u8],
        number: usize,
        word: &'x [u8],
        place: usize,
    ) {
        let name = [
            Piece::Text(before),
            Piece::Number(number),
            Piece::Text(word),
            Piece::Number(place),
        ];
        self.put_made(alloc, &name);
        self.detail.put(b" = ");
    }

    /// Appends the columns at these places of a row, and writes their names: these words before the
    /// first, commas between them.
    pub fn put_places(&mut self, alloc: Global, row: &Row<'_>, places: &[u32], first: &[u8]) {
        for (count, place) in places.iter().enumerate() {
            self.detail
                .put(if count == 0 { first } else { b", ".as_slice() });
            self.put_name(alloc, row.name(*place));
        }
    }

    /// The line of this number, kind and inputs.
    pub fn line(
        self,
        alloc: Global,
        number: usize,
        depth: usize,
        kind: &[u8],
        inputs: &[usize],
        rows: Option<usize>,
    ) -> Result<PlanLine, AllocError>
        ensures { IfOk result (λ line. (line.number ≡ number) × (line.kind.items ≡ kind.now)
            × (line.inputs.items ≡ inputs.now)) }
    {
        let RowWriter { detail, columns } = self;
        let kind = Vec::from_slice(alloc, kind)?;
        let inputs = Vec::from_slice(alloc, inputs)?;
        let detail = detail.finish()?;
        let columns = columns.finish()?;
        Ok(PlanLine {
            number,
            depth,
            kind,
            inputs,
            detail,
            columns,
            rows,
        })
    }
}
