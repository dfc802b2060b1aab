//! Files whose lines are rows: a table's, and those of a refresh set.
ghost use Rattle.std.specs.Prelude.{◌≡◌, ◌<◌, ◌∷◌, [], length, IfOk};
ghost use Rattle.std.specs.List.{All};
ghost use Rattle.base_schema.specs.declared.column.ColumnKind.TheVariants.{Key};
ghost use Rattle.base_schema.specs.LineForm.{file_form, never_null};

use crate::column::{ColumnKind, LineColumn};
use crate::table::TableName;
use base_refusals::RefreshFile;
use std::alloc::{AllocError, Global};

/// A file whose lines are rows.
#[derive(Clone, Copy, Debug, PartialEq, Eq, PartialOrd, Ord, Hash)]
pub enum DataFile {
    /// A table's file. No two of its lines have the same primary key.
    Table(TableName),
    /// A file of a refresh set. A key may stand in it twice.
    Refresh(RefreshFile),
}

impl DataFile {
    /// A line's columns, from left to right.
    pub fn columns(self, alloc: Global) -> Result<Vec<LineColumn>, AllocError>
        ensures { IfOk result (λ columns. columns.items ≡ (file_form self).columns) }
    {
        match self {
            DataFile::Table(table) => table.columns(alloc),
            DataFile::Refresh(RefreshFile::Orders) => TableName::Orders.columns(alloc),
            DataFile::Refresh(RefreshFile::Lineitem) => TableName::Lineitem.columns(alloc),
            DataFile::Refresh(RefreshFile::Delete) => delete_columns(alloc),
        }
    }

    /// The places of the key's columns, counted from 0.
    #[tactic(auto, using(crate::proofs::Forms::keys_inside))]
    pub fn key_columns(self) -> &'static [usize]
        ensures places { result.now ≡ (file_form self).key }
        ensures inside { All (λ place. place < length (file_form self).columns) result.now }
    {
        match self {
            DataFile::Table(table) => table.key_columns(),
            DataFile::Refresh(RefreshFile::Orders) => TableName::Orders.key_columns(),
            DataFile::Refresh(RefreshFile::Lineitem) => TableName::Lineitem.key_columns(),
            DataFile::Refresh(RefreshFile::Delete) => &[0],
        }
    }

    /// Whether a line is refused whose key an earlier line has.
    pub fn refuses_duplicates(self) -> bool
        ensures { result ≡ (file_form self).unique }
    {
        matches!(self, DataFile::Table(_))
    }
}

// The columns of a line of a delete file: the key of an order.
fn delete_columns(alloc: Global) -> Result<Vec<LineColumn>, AllocError>
    ensures { IfOk result (λ columns. columns.items ≡ never_null Key ∷ []) }
{
    let mut columns = Vec::with_capacity(alloc, 1)?;
    columns.push(LineColumn {
        kind: ColumnKind::Key,
        nullable: false,
    })?;
    Ok(columns)
}
