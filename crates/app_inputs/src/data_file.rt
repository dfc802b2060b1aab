//! Reading the rows of a data file, each piece fed to the file's reader as it comes.
ghost use Rattle.std.specs.Prelude.{◌≡◌, ℕ, ◌<◌, ◌≤◌, ◌++◌, List, IfErr, IfOk, MatchResult, length};
ghost use Rattle.std.specs.Prelude.{take, true};
ghost use Rattle.std.specs.Io.KnownBytes.{Consumes, IsAtEnd};
ghost use Rattle.base_schema.specs.Kinds.{RowsAreOf};
ghost use Rattle.base_schema.specs.LineForm.{RowsFit};
ghost use Rattle.base_schema.specs.Tables.{columns_of};
ghost use Rattle.store_file_reader.specs.Error.{IsErrorOf};
ghost use Rattle.store_file_reader.specs.Reading.{Feeds, HasRead, rows_for};
ghost use Rattle.app_inputs.specs.DataFile.{FailsAs, FitForm, HasBegun, IsFileOf, IsGiven};
ghost use Rattle.app_inputs.specs.DataFile.{reading_of};
ghost use Rattle.app_inputs.specs.FilesAfter.{FilesAfterRead};

use crate::input::PIECE;
use crate::input_error::ReadError;
use base_columns::Rows;
use base_io::{Files, Got};
use base_refusals::LineRefusal;
use base_schema::TableName;
use store_file_reader::{RefreshReader, TableError, TableReader};

/// A reader of a data file, which is fed the file's pieces in order.
#[derive(Drop)]
pub(crate) enum DataReader {
    /// Of a table's file.
    Table(TableReader),
    /// Of a refresh file.
    Refresh(RefreshReader),
}

impl DataReader {
    /// Reads the file's next piece.
    fn feed(&mut self, piece: &[u8]) -> Result<(), TableError>
        ensures { Feeds (reading_of self.old) (reading_of self.new) piece.now result }
    {
        match self {
            DataReader::Table(reader) => reader.feed(piece),
            DataReader::Refresh(reader) => reader.feed(piece),
        }
    }

    /// The rows of the whole file.
    fn finish(self) -> Result<Rows, TableError>
        ensures rows { (text : List ℕ) → HasRead text (reading_of self)
            → MatchResult result (λ rows. rows_for (reading_of self) text ≡ Ok rows)
            (IsErrorOf (rows_for (reading_of self) text)) }
        ensures fit { IfOk result (RowsFit (reading_of self).lines.form) }
        ensures kinds { (table : TableName) → (reading_of self).lines.form.columns
            ≡ columns_of table
            → IfOk result (RowsAreOf table) }
    {
        match self {
            DataReader::Table(reader) => reader.finish(),
            DataReader::Refresh(reader) => reader.finish(),
        }
    }
}

/// Reads the next bytes of the open file to the piece's front, and answers how many; 0 at the
/// file's end.
fn next_piece<F: Files>(files: &mut F, piece: &mut [u8]) -> Result<usize, ReadError>
    requires open { F.is_open files.old ≡ true }
    requires room { 0 < length piece.old }
    ensures bytes { IfOk result (λ n. (n ≤ length piece.new)
        × Consumes (F.left files.old) (F.left files.new) (take n piece.new)
        × (n ≡ 0 → IsAtEnd (F.left files.new))) }
    ensures open { F.is_open files.new ≡ true }
    ensures files { FilesAfterRead F.held F.faults F.misses result files.old files.new }
{
    match files.next(piece) {
        Got::Got(count) => Ok(count),
        Got::Failed => Err(ReadError::Fault),
    }
}

/// What a reader's error says of its file: its first bad line, unless memory ran out.
fn first_bad_line(error: TableError) -> Result<Result<Rows, LineRefusal>, ReadError>
    ensures failed { FailsAs error result }
    ensures memory { IfErr result (λ e. e ≡ ReadError.OutOfMemory) }
{
    match error {
        TableError::Refused(first) => Ok(Err(first)),
        TableError::OutOfMemory => Err(ReadError::OutOfMemory),
    }
}

/// The rows of a file of which all bytes were fed to the reader, or its first bad line.
fn finish(reader: DataReader) -> Result<Result<Rows, LineRefusal>, ReadError>
    ensures rows { (text : List ℕ) → HasRead text (reading_of reader)
        → IfOk result (λ r. r ≡ rows_for (reading_of reader) text) }
    ensures fits { IfOk result (FitForm (reading_of reader).lines.form) }
    ensures memory { IfErr result (λ e. e ≡ ReadError.OutOfMemory) }
{
    match reader.finish() {
        Ok(rows) => Ok(Ok(rows)),
        Err(TableError::Refused(first)) => Ok(Err(first)),
        Err(TableError::OutOfMemory) => Err(ReadError::OutOfMemory),
    }
}

/// The rows of the open file, or its first bad line. It is read no further than that line's piece.
pub(crate) fn read_data_file<F: Files>(
    files: &mut F,
    reader: DataReader,
) -> Result<Result<Rows, LineRefusal>, ReadError>
    requires open { F.is_open files.old ≡ true }
    requires begun { HasBegun (reading_of reader) }
    ensures rows { IfOk result (IsFileOf (reading_of reader).lines.form (F.left files.old)) }
    ensures fits { IfOk result (FitForm (reading_of reader).lines.form) }
    ensures given { IfOk result (IsGiven (reading_of reader).lines.form) }
    ensures files { FilesAfterRead F.held F.faults F.misses result files.old files.new }
{
    let mut reader = reader;
    let mut piece = [0u8; PIECE];
    'pieces: loop {
        let count = next_piece(files, &mut piece)?;
        if count == 0 {
            return finish(reader);
        }
        match reader.feed(&piece[..count]) {
            Ok(()) => {}
            Err(error) => return first_bad_line(error),
        }
    }
}
