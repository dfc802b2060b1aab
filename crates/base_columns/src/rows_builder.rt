//! The rows of a table as they are read.
ghost use Rattle.std.specs.Prelude.{◌≡◌, ◌<◌, ◌++◌, ◌∷◌, ◌^◌, [], IfOk, OnOk, OnErr, length, map};
ghost use Rattle.std.specs.Prelude.{slice_index_or};
ghost use Rattle.std.specs.List.{All};
ghost use Rattle.base_row_laws.specs.Ranked.{ranked, true_rank};
ghost use Rattle.base_value.specs.declared.value.Value.TheVariants.{Null};
ghost use Rattle.base_columns.specs.Fields.{field_value, IsPrintableField};
ghost use Rattle.base_columns.specs.Numbers.{small_number};
ghost use Rattle.base_columns.specs.Tables.{table_under_way, AreFull, IsOpen, plain_rows};

use crate::batch_builder::BatchBuilder;
use crate::column_builder::ColumnForm;
use crate::field::Field;
use crate::rows::Rows;
use crate::segment::{SEGMENT_ROWS, Segment};
use std::alloc::{AllocError, Global};
use std::marker::Model;

// A table has fewer full segments than this; past it a row finds no memory.
const FULL_SEGMENTS: usize = (1 << 50) - 1;

/// Rows of one width, seen as the width and the list of the rows' values. A push that fails leaves
/// it as before.
#[derive(Drop)]
pub struct RowsBuilder {
    full: Vec<Segment>,
    rest: BatchBuilder,
}

impl Model for RowsBuilder {
    ghost use Rattle.base_columns.specs.Tables.{Table, table_under_way, AreFull, IsOpen};

    ghost Value = { Table };

    ghost view = { λ b. table_under_way b.full.items b.rest };

    ghost invariant = { λ b. AreFull b.full.items × IsOpen b.rest };
}

#[tactic(auto, using(crate::proofs::TableLists::tables))]
impl RowsBuilder {
    /// No rows, of as many columns as forms.
    pub fn new(alloc: Global, forms: &[ColumnForm]) -> Result<RowsBuilder, AllocError>
        ensures width { IfOk result (λ b. b.width ≡ length forms.now) }
        ensures rows { IfOk result (λ b. b.rows ≡ []) }
    {
        let rest = BatchBuilder::new(alloc, forms)?;
        Ok(RowsBuilder {
            full: Vec::new(alloc),
            rest,
        })
    }

    /// How many values each row has.
    pub fn width(&self) -> usize
        ensures { result ≡ self.now.width }
    {
        self.rest.width()
    }

    /// How many rows there are.
    pub fn len(&self) -> usize
        ensures value { result ≡ length self.now.rows }
        ensures few { result < 2 ^ 63 }
    {
        self.full.len() * SEGMENT_ROWS + self.rest.len()
    }

    /// The number of a row in a column, where it is one of 64 bits.
    pub fn number(&self, i: usize, j: usize) -> Option<i64>
        requires row { i < length self.now.rows }
        requires column { j < self.now.width }
        ensures { result ≡ small_number
            (slice_index_or (slice_index_or self.now.rows i []) j Null) }
    {
        let segment = i / SEGMENT_ROWS;
        if segment < self.full.len() {
            self.full[segment].number(i % SEGMENT_ROWS, j)
        } else {
            self.rest.number(i - self.full.len() * SEGMENT_ROWS, j)
        }
    }

    /// One row more.
    pub fn push(&mut self, alloc: Global, row: &[Field<'_>]) -> Result<(), AllocError>
        requires long { length row.now ≡ self.old.width }
        requires printable { All IsPrintableField row.now }
        ensures width { self.new.width ≡ self.old.width }
        ensures ok { OnOk result (self.new.rows ≡ self.old.rows ++ map field_value row.now ∷ []) }
        ensures err { OnErr result (self.new.rows ≡ self.old.rows) }
    {
        close_full(alloc, &mut self.full, &mut self.rest)?;
        push_open(alloc, &mut self.rest, row)
    }

    /// The rows.
    pub fn finish(self, alloc: Global) -> Result<Rows, AllocError>
        ensures { IfOk result (λ rows. rows ≡ self.rows) }
    {
        let RowsBuilder { full, rest } = self;
        let count = full.len() * SEGMENT_ROWS;
        let rows = Rows::from_segments(full, count);
        with_rest(alloc, rows, &rest)
    }
}

// One row more after the full segments, if there is room.
#[tactic(auto, using(crate::proofs::TableLists::tables))]
fn push_open(alloc: Global, rest: &mut BatchBuilder, row: &[Field<'_>]) -> Result<(), AllocError>
    requires rest { IsOpen rest.old }
    requires room { length rest.old.rows < 4096 }
    requires long { length row.now ≡ rest.old.width }
    requires printable { All IsPrintableField row.now }
    ensures rest { IsOpen rest.new }
    ensures width { rest.new.width ≡ rest.old.width }
    ensures ok { OnOk result
        (rest.new.rows ≡ rest.old.rows ++ ranked (map field_value row.now) true_rank ∷ []) }
    ensures err { OnErr result (rest.new.rows ≡ rest.old.rows) }
{
    match rest.push_fields(alloc, row) {
        Ok(()) => Ok(()),
        Err(error) => Err(error),
    }
}

// Stores the rows that come after the full segments, if no more go in with them.
#[tactic(auto, using(crate::proofs::TableLists::tables))]
fn close_full(
    alloc: Global,
    full: &mut Vec<Segment>,
    rest: &mut BatchBuilder,
) -> Result<(), AllocError>
    requires full { AreFull full.old.items }
    requires rest { IsOpen rest.old }
    ensures full { AreFull full.new.items }
    ensures rest { IsOpen rest.new }
    ensures table { table_under_way full.new.items rest.new
        ≡ table_under_way full.old.items rest.old }
    ensures room { OnOk result (length rest.new.rows < 4096) }
{
    if rest.len() < SEGMENT_ROWS {
        return Ok(());
    }
    if full.len() >= FULL_SEGMENTS {
        return Err(AllocError);
    }
    let segment = Segment::new(alloc, rest.finish(alloc)?)?;
    full.push(segment)?;
    rest.clear();
    Ok(())
}

// The rows, and after them those that no full segment has.
#[tactic(auto, using(crate::proofs::TableLists::tables))]
fn with_rest(alloc: Global, mut rows: Rows, rest: &BatchBuilder) -> Result<Rows, AllocError>
    requires { IsOpen rest.now }
    ensures { IfOk result (λ r. r ≡ rows ++ plain_rows rest.now.rows) }
{
    if rest.len() == 0 {
        return Ok(rows);
    }
    let last = Segment::new(alloc, rest.finish(alloc)?)?;
    rows.push(last)?;
    Ok(rows)
}
