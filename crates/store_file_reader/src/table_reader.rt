//! The reader of a table's file.
ghost use Rattle.std.specs.Prelude.{◌≡◌, ℕ, List, [], Some, IfOk, MatchResult};
ghost use Rattle.base_schema.specs.declared.table.TableName.{TableName};
ghost use Rattle.base_schema.specs.Kinds.{RowsAreOf};
ghost use Rattle.base_schema.specs.LineForm.{RowsFit, table_form};
ghost use Rattle.base_schema.specs.Tables.{columns_of};
ghost use Rattle.store_file_reader.specs.declared.error.TableError.{TableError};
ghost use Rattle.store_file_reader.specs.Error.{IsErrorOf};
ghost use Rattle.store_file_reader.specs.File.{most_bytes};

use crate::error::TableError;
use crate::reader::{FileReader, MOST_BYTES};
use base_columns::Rows;
use base_schema::{DataFile, TableName};
use std::alloc::{AllocError, Global};
use std::marker::Model;

/// A reader of a table's file, which is fed the file's pieces in order, however they are cut. It
/// keeps the rows of the lines that have ended and the bytes of the line that has not. Once it has
/// refused a line, or memory ran out, it answers that again.
#[derive(Drop)]
pub struct TableReader {
    reader: FileReader,
}

impl Model for TableReader {
    ghost use Rattle.store_file_reader.specs.Reading.{Reading};

    ghost Value = { Reading };

    ghost view = { λ r. r.reader };
}

#[tactic(auto, using(crate::proofs::Readers::readers))]
impl TableReader {
    ghost use Rattle.store_file_reader.specs.Reading.{Feeds, HasRead, bytes_fed, rows_for};

    /// A reader of a table's file of at most 2^32 bytes.
    pub fn new(alloc: Global, table: TableName) -> Result<TableReader, AllocError>
        ensures form { IfOk result (λ r. r.lines.form ≡ table_form table) }
        ensures limit { IfOk result (λ r. r.lines.limit ≡ most_bytes) }
        ensures bytes { IfOk result (λ r. bytes_fed r ≡ 0) }
        ensures started { IfOk result (HasRead []) }
    {
        TableReader::with_limit(alloc, table, MOST_BYTES)
    }

    /// A reader of a table's file of at most `limit` bytes.
    pub fn with_limit(
        alloc: Global,
        table: TableName,
        limit: u64,
    ) -> Result<TableReader, AllocError>
        ensures form { IfOk result (λ r. r.lines.form ≡ table_form table) }
        ensures limit { IfOk result (λ r. r.lines.limit ≡ limit) }
        ensures bytes { IfOk result (λ r. bytes_fed r ≡ 0) }
        ensures started { IfOk result (HasRead []) }
    {
        let reader = FileReader::new(alloc, DataFile::Table(table), limit)?;
        Ok(TableReader { reader })
    }

    /// Reads the file's next piece: the lines that end in it give rows, and a bad one among them is
    /// refused.
    pub fn feed(&mut self, piece: &[u8]) -> Result<(), TableError>
        ensures { Feeds self.old self.new piece.now result }
    {
        self.reader.feed(piece)
    }

    /// The rows of the whole file.
    pub fn finish(self) -> Result<Rows, TableError>
        ensures rows { (text : List ℕ) → HasRead text self
            → MatchResult result (λ rows. rows_for self text ≡ Ok rows)
            (IsErrorOf (rows_for self text)) }
        ensures fit { IfOk result (RowsFit self.lines.form) }
        ensures kinds { (table : TableName) → self.lines.form.columns ≡ columns_of table
            → IfOk result (RowsAreOf table) }
        ensures again { (error : TableError) → self.error ≡ Some error → result ≡ Err error }
    {
        let TableReader { reader } = self;
        reader.finish()
    }
}
