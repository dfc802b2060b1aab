//! A whole file that lies in pieces.
ghost use Rattle.std.specs.Prelude.{◌≡◌, Ok, IfOk, MatchResult};
ghost use Rattle.base_schema.specs.LineForm.{RowsFit, file_form};
ghost use Rattle.store_file_reader.specs.Error.{IsErrorOf};
ghost use Rattle.store_file_reader.specs.File.{file_rows, most_bytes};
ghost use Rattle.store_file_reader.specs.Pieces.{joined};

use crate::error::TableError;
use crate::reader::{FileReader, MOST_BYTES};
use base_columns::Rows;
use base_schema::DataFile;
use std::alloc::Global;

/// The rows of a file that lies in pieces: those of the joined pieces, wherever they are cut.
pub fn read_pieces(alloc: Global, file: DataFile, pieces: &[&[u8]]) -> Result<Rows, TableError>
    ensures rows { MatchResult result
        (λ rows. file_rows (file_form file) most_bytes (joined pieces.now) ≡ Ok rows)
        (IsErrorOf (file_rows (file_form file) most_bytes (joined pieces.now))) }
    ensures fit { IfOk result (RowsFit (file_form file)) }
{
    let mut reader = FileReader::new(alloc, file, MOST_BYTES)?;
    for piece in pieces {
        reader.feed(piece)?;
    }
    let rows = reader.finish()?;
    Ok(rows)
}
