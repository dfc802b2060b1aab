//! Rows that are put together one by one.
ghost use Rattle.std.specs.Prelude.{◌≡◌, ◌<◌, slice_index_or, ◌≤◌, ◌++◌, ◌∷◌, [], IfOk, OnOk};
ghost use Rattle.std.specs.Prelude.{OnErr, length, map};
ghost use Rattle.std.specs.List.{All};
ghost use Rattle.base_row_laws.specs.Ranked.{ranked, true_rank};
ghost use Rattle.base_value.specs.declared.value.Value.TheVariants.{Null};
ghost use Rattle.base_value.specs.Truth.{standing_rank};
ghost use Rattle.base_columns.specs.Batches.{put_row, row_at};
ghost use Rattle.base_columns.specs.Numbers.{small_number};
ghost use Rattle.base_columns.specs.Fields.{field_value, IsPrintableField};

use crate::batch::Batch;
use crate::column::Column;
use crate::column_builder::{ColumnBuilder, ColumnForm};
use crate::field::Field;
use crate::standings::Standings;
use base_value::{Standing, Value};
use std::alloc::{AllocError, Global};
use std::marker::Model;

/// Rows with standings, seen as their width and the list of the rows. A push that fails leaves it
/// as before.
#[derive(Drop)]
pub struct BatchBuilder {
    columns: Vec<ColumnBuilder>,
    standings: Standings,
}

impl Model for BatchBuilder {
    ghost use Rattle.std.specs.Prelude.{length};
    ghost use Rattle.base_row_laws.specs.Ranked.{Relation};
    ghost use Rattle.base_value.specs.declared.value.Value.{Value as Datum};
    ghost use Rattle.base_columns.specs.Batches.{column_relation, AreLong};

    ghost Value = { Relation Datum };

    ghost view = { λ b. column_relation b.columns.items b.standings };

    ghost invariant = { λ b. AreLong (length b.standings) b.columns.items };
}

#[tactic(auto, using(crate::proofs::BatchRows::batches))]
impl BatchBuilder {
    /// No rows, of as many columns as forms.
    pub fn new(alloc: Global, forms: &[ColumnForm]) -> Result<BatchBuilder, AllocError>
        ensures width { IfOk result (λ b. b.width ≡ length forms.now) }
        ensures rows { IfOk result (λ b. b.rows ≡ []) }
    {
        let columns = empty_columns(alloc, forms)?;
        Ok(BatchBuilder {
            columns,
            standings: Standings::all_true(0),
        })
    }

    /// How many values each row has.
    pub fn width(&self) -> usize
        ensures { result ≡ self.now.width }
    {
        self.columns.len()
    }

    /// How many rows there are.
    pub fn len(&self) -> usize
        ensures { result ≡ length self.now.rows }
    {
        self.standings.len()
    }

    /// The number of a row in a column, where it is one of 64 bits.
    pub(crate) fn number(&self, i: usize, j: usize) -> Option<i64>
        requires row { i < length self.now.rows }
        requires column { j < self.now.width }
        ensures { result ≡ small_number (slice_index_or (row_at self.now.rows i).values j Null) }
    {
        self.columns[j].number(i)
    }

    /// One row more.
    pub fn push_row(
        &mut self,
        alloc: Global,
        row: &[Value],
        standing: Standing,
    ) -> Result<(), AllocError>
        requires { length row.now ≡ self.old.width }
        ensures width { self.new.width ≡ self.old.width }
        ensures ok { OnOk result
            (self.new.rows ≡ self.old.rows ++ ranked row.now (standing_rank standing) ∷ []) }
        ensures err { OnErr result (self.new.rows ≡ self.old.rows) }
    {
        let before = self.standings.len();
        self.standings.push(alloc, standing)?;
        match put_row(alloc, &mut self.columns, row) {
            Ok(()) => Ok(()),
            Err(error) => {
                self.standings.truncate(before);
                Err(error)
            }
        }
    }

    /// One row more at True.
    #[tactic(auto, using(crate::proofs::BatchRows::batches, crate::proofs::FieldLists::fields_length))]
    pub fn push_fields(&mut self, alloc: Global, row: &[Field<'_>]) -> Result<(), AllocError>
        requires long { length row.now ≡ self.old.width }
        requires printable { All IsPrintableField row.now }
        ensures width { self.new.width ≡ self.old.width }
        ensures ok { OnOk result
            (self.new.rows ≡ self.old.rows ++ ranked (map field_value row.now) true_rank ∷ []) }
        ensures err { OnErr result (self.new.rows ≡ self.old.rows) }
    {
        let before = self.standings.len();
        self.standings.push(alloc, Standing::AtTrue)?;
        match put_fields(alloc, &mut self.columns, row) {
            Ok(()) => Ok(()),
            Err(error) => {
                self.standings.truncate(before);
                Err(error)
            }
        }
    }

    /// The rows as a batch of stored columns, which take no more room than the values do.
    pub fn finish(&self, alloc: Global) -> Result<Batch, AllocError>
        ensures { IfOk result (λ b. b ≡ self.now) }
    {
        let columns = stored_columns(alloc, self.columns.as_slice())?;
        let standings = self.standings.copy(alloc)?;
        Ok(Batch::with_standings(columns, standings))
    }

    /// No rows any more, with the room of those that there were.
    pub(crate) fn clear(&mut self)
        ensures width { self.new.width ≡ self.old.width }
        ensures rows { self.new.rows ≡ [] }
    {
        clear_columns(&mut self.columns);
        self.standings.truncate(0);
    }
}

// No values in each column.
fn empty_columns(alloc: Global, forms: &[ColumnForm]) -> Result<Vec<ColumnBuilder>, AllocError>
    ensures long { IfOk result (λ v. length v.items ≡ length forms.now) }
    ensures empty { IfOk result (λ v. All (λ c. c ≡ []) v.items) }
{
    let mut columns = Vec::with_capacity(alloc, forms.len())?;
    for form in forms {
        let column = ColumnBuilder::new(alloc, *form)?;
        columns.push(column)?;
    }
    Ok(columns)
}

// Each builder's values as a stored column.
fn stored_columns(alloc: Global, builders: &[ColumnBuilder]) -> Result<Vec<Column>, AllocError>
    ensures { IfOk result (λ v. v.items ≡ builders.now) }
{
    let mut columns = Vec::with_capacity(alloc, builders.len())?;
    for builder in builders {
        let column = builder.stored(alloc)?;
        columns.push(column)?;
    }
    Ok(columns)
}

// No values in each column any more.
fn clear_cells(columns: &mut [ColumnBuilder])
    ensures long { length columns.new ≡ length columns.old }
    ensures empty { All (λ c. c ≡ []) columns.new }
{
    if columns.len() == 0 {
        return;
    }
    columns[0].truncate(0);
    clear_cells(&mut columns[1..]);
}

// No values in each column any more.
fn clear_columns(columns: &mut Vec<ColumnBuilder>)
    ensures long { length columns.new.items ≡ length columns.old.items }
    ensures empty { All (λ c. c ≡ []) columns.new.items }
{
    clear_cells(columns.as_mut_slice());
}

// One value more in each column, or no change.
#[tactic(auto, unfolding(crate::specs::Batches::put_row))]
fn put_cells(alloc: Global, columns: &mut [ColumnBuilder], row: &[Value]) -> Result<(), AllocError>
    requires { length row.now ≡ length columns.old }
    ensures ok { OnOk result (columns.new ≡ put_row columns.old row.now) }
    ensures err { OnErr result (columns.new ≡ columns.old) }
{
    if row.len() == 0 {
        return Ok(());
    }
    let before = columns[0].len();
    columns[0].push(alloc, &row[0])?;
    let done = put_cells(alloc, &mut columns[1..], &row[1..]);
    if done.is_err() {
        columns[0].truncate(before);
    }
    done
}

// One value more in each column, or no change.
fn put_row(alloc: Global, columns: &mut Vec<ColumnBuilder>, row: &[Value]) -> Result<(), AllocError>
    requires { length row.now ≡ length columns.old.items }
    ensures ok { OnOk result (columns.new.items ≡ put_row columns.old.items row.now) }
    ensures err { OnErr result (columns.new.items ≡ columns.old.items) }
{
    put_cells(alloc, columns.as_mut_slice(), row)
}

// One field more in each column, or no change.
#[tactic(auto, unfolding(crate::specs::Batches::put_row))]
fn put_field_cells(
    alloc: Global,
    columns: &mut [ColumnBuilder],
    row: &[Field<'_>],
) -> Result<(), AllocError>
    requires long { length row.now ≡ length columns.old }
    requires printable { All IsPrintableField row.now }
    ensures ok { OnOk result (columns.new ≡ put_row columns.old (map field_value row.now)) }
    ensures err { OnErr result (columns.new ≡ columns.old) }
{
    if row.len() == 0 {
        return Ok(());
    }
    let before = columns[0].len();
    columns[0].push_field(alloc, &row[0])?;
    let done = put_field_cells(alloc, &mut columns[1..], &row[1..]);
    if done.is_err() {
        columns[0].truncate(before);
    }
    done
}

// One field more in each column, or no change.
fn put_fields(
    alloc: Global,
    columns: &mut Vec<ColumnBuilder>,
    row: &[Field<'_>],
) -> Result<(), AllocError>
    requires long { length row.now ≡ length columns.old.items }
    requires printable { All IsPrintableField row.now }
    ensures ok { OnOk result
        (columns.new.items ≡ put_row columns.old.items (map field_value row.now)) }
    ensures err { OnErr result (columns.new.items ≡ columns.old.items) }
{
    put_field_cells(alloc, columns.as_mut_slice(), row)
}
