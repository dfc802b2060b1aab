//! The rows of a file, whose keys differ where they must.
ghost use Rattle.std.specs.Prelude.{◌≡◌, ◌+◌, ◌++◌, ◌∷◌, [], ◌&&◌, not, length, map, IfOk, OnErr};
ghost use Rattle.std.specs.Prelude.{OnOk, if◌then◌else◌, true, IsTrue};
ghost use Rattle.base_schema.specs.LineForm.{file_form, fits, RowsFit};
ghost use Rattle.std.specs.List.{All};
ghost use Rattle.base_columns.specs.Fields.{field_value, IsPrintableField};
ghost use Rattle.store_file_reader.specs.File.{is_taken};

use crate::key::{Keys, note_row};
use base_columns::{ColumnForm, Field, Rows, RowsBuilder};
use base_decimal::Scale;
use base_schema::{ColumnKind, DataFile, LineColumn};
use std::alloc::{AllocError, Global};
use std::marker::Model;

/// A file's rows in order, with what is kept of their keys.
pub struct KeyedRows {
    alloc: Global,
    file: DataFile,
    columns: Vec<LineColumn>,
    rows: RowsBuilder,
    keys: Keys,
}

impl Drop for KeyedRows {
    #[inline]
    fn drop(self) {
        let KeyedRows {
            alloc: _,
            file,
            columns,
            rows,
            keys,
        } = self;
        drop(file);
        drop(columns);
        drop(rows);
        drop(keys);
    }
}

impl Model for KeyedRows {
    ghost use Rattle.store_file_reader.specs.Rows.{LineRows, line_rows};
    ghost use Rattle.base_schema.specs.LineForm.{file_form, RowsFit};

    ghost Value = { LineRows };

    ghost view = { λ r. line_rows (file_form r.file) r.rows.rows };

    ghost use Rattle.std.specs.Prelude.{◌≡◌, length, map, true};
    ghost use Rattle.store_file_reader.specs.Key.{row_key, AreKeys};

    ghost invariant = { λ r.
        ((file_form r.file).unique ≡ true
        → AreKeys r.keys (map (row_key (file_form r.file)) r.rows.rows))
        × RowsFit (file_form r.file) r.rows.rows
        × (r.rows.width ≡ length (file_form r.file).columns)
        × (r.columns.items ≡ (file_form r.file).columns) };
}

#[tactic(auto, using(crate::proofs::Rows::keyed))]
impl KeyedRows {
    /// No rows yet.
    pub fn new(alloc: Global, file: DataFile) -> Result<KeyedRows, AllocError>
        ensures form { IfOk result (λ r. r.form ≡ file_form file) }
        ensures rows { IfOk result (λ r. r.rows ≡ []) }
    {
        let columns = file.columns(alloc)?;
        let forms = column_forms(alloc, columns.as_slice())?;
        let rows = RowsBuilder::new(alloc, forms.as_slice())?;
        Ok(KeyedRows {
            alloc,
            file,
            columns,
            rows,
            keys: Keys::Ascending(None),
        })
    }

    /// The columns of the file's lines.
    pub fn columns(&self) -> &[LineColumn]
        ensures { result.now ≡ self.now.form.columns }
    {
        self.columns.as_slice()
    }

    /// The number, from 1, of the row that comes next.
    pub fn next_number(&self) -> u64
        ensures { result ≡ length self.now.rows + 1 }
    {
        self.rows.len() as u64 + 1
    }

    /// The rows in order.
    pub fn into_rows(self) -> Result<Rows, AllocError>
        ensures rows { IfOk result (λ rows. rows ≡ self.rows) }
        ensures fit { IfOk result (RowsFit self.form) }
    {
        let KeyedRows {
            alloc,
            file: _,
            columns: _,
            rows,
            keys: _,
        } = self;
        let rows = rows.finish(alloc)?;
        Ok(rows)
    }

    /// The row of these fields at the end, unless its key must be new and isn't; whether it was put
    /// there.
    pub fn push(&mut self, row: &[Field<'_>]) -> Result<bool, AllocError>
        requires fits { IsTrue (fits self.old.form (map field_value row.now)) }
        requires printable { All IsPrintableField row.now }
        ensures form { self.new.form ≡ self.old.form }
        ensures added { IfOk result
            (λ added. added ≡ not (self.old.form.unique && is_taken self.old.form self.old.rows
            (map field_value row.now))) }
        ensures rows { IfOk result
            (λ added. self.new.rows ≡ (if added then self.old.rows
            ++ map field_value row.now ∷ [] else self.old.rows)) }
        ensures err { OnErr result (self.new.rows ≡ self.old.rows) }
    {
        let new = note_row(self.alloc, &mut self.keys, self.file, &self.rows, row)?;
        if !new {
            return Ok(false);
        }
        match self.rows.push(self.alloc, row) {
            Ok(()) => Ok(true),
            Err(error) => {
                self.keys = Keys::Lost;
                Err(error)
            }
        }
    }
}

// What these columns are expected to hold.
fn column_forms(alloc: Global, columns: &[LineColumn]) -> Result<Vec<ColumnForm>, AllocError>
    ensures { IfOk result (λ forms. length forms.items ≡ length columns.now) }
{
    let mut forms = Vec::with_capacity(alloc, columns.len())?;
    for column in columns {
        forms.push(column_form(column.kind))?;
    }
    Ok(forms)
}

// What a column of that kind is expected to hold.
fn column_form(kind: ColumnKind) -> ColumnForm {
    match kind {
        ColumnKind::Key | ColumnKind::Whole => ColumnForm::Numbers(Scale::new(0)),
        ColumnKind::Decimal => ColumnForm::Numbers(Scale::new(2)),
        ColumnKind::Date => ColumnForm::Dates,
        ColumnKind::Text(_) => ColumnForm::Texts,
    }
}
