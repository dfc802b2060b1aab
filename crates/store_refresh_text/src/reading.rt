//! Rows and keys read back from their texts.
ghost use Rattle.std.specs.Prelude.{◌≡◌, ◌++◌, List, Ok, length, IfOk, OnOk, IfSome, IfNone};
ghost use Rattle.std.specs.Prelude.{MatchResult};
ghost use Rattle.base_value.specs.declared.value.Value.{Value as Datum};
ghost use Rattle.base_schema.specs.LineForm.{RowsFit, refresh_form};
ghost use Rattle.store_state.specs.Keys.{order_key, order_keys};
ghost use Rattle.store_file_reader.specs.Error.{IsErrorOf};
ghost use Rattle.store_file_reader.specs.File.{file_rows};
ghost use Rattle.store_refresh_text.specs.Laws.{IsTextOf};

use base_columns::Rows;
use base_refusals::RefreshFile;
use base_value::{Row, Value};
use std::alloc::{AllocError, Global};
use store_file_reader::{RefreshReader, TableError};

/// The rows of a text, or its first bad line.
fn fed(alloc: Global, file: RefreshFile, text: &[u8]) -> Result<Rows, TableError>
    ensures rows { MatchResult result
        (λ rows. file_rows (refresh_form file) (length text.now) text.now ≡ Ok rows)
        (IsErrorOf (file_rows (refresh_form file) (length text.now) text.now)) }
    ensures fit { IfOk result (RowsFit (refresh_form file)) }
{
    let mut reader = RefreshReader::with_limit(alloc, file, text.len() as u64)?;
    reader.feed(text)?;
    let rows = reader.finish()?;
    Ok(rows)
}

/// The rows of a text, if it is a file's. The file may be of any length.
pub fn rows_of(alloc: Global, file: RefreshFile, text: &[u8]) -> Result<Option<Rows>, AllocError>
    ensures some { IfOk result (λ found. IfSome found (IsTextOf file text.now)) }
    ensures fit { IfOk result (λ found. IfSome found (RowsFit (refresh_form file))) }
    ensures none { IfOk result (λ found. IfNone found ((rows : List (List Datum))
        → IsTextOf file text.now rows → ⊥)) }
{
    match fed(alloc, file, text) {
        Ok(rows) => Ok(Some(rows)),
        Err(TableError::Refused(_)) => Ok(None),
        Err(TableError::OutOfMemory) => Err(AllocError),
    }
}

/// The order's key of a row; 0 where it has none of 64 bits.
fn key_of(row: &Row) -> i64
    ensures { result ≡ order_key row.now }
{
    match row.values().first() {
        Some(Value::Number(_, coefficient)) => i64::try_from(*coefficient).unwrap_or(0),
        _ => 0,
    }
}

/// Appends the keys of rows.
fn push_order_keys(keys: &mut Vec<i64>, rows: &[Row]) -> Result<(), AllocError>
    ensures { OnOk result (keys.new.items ≡ keys.old.items ++ order_keys rows.now) }
{
    for row in rows {
        keys.push(key_of(row))?;
    }
    Ok(())
}

/// The keys of the rows of a delete.
pub fn keys_of(alloc: Global, rows: &Rows) -> Result<Vec<i64>, AllocError>
    ensures { IfOk result (λ keys. keys.items ≡ order_keys rows.now) }
{
    let rows = rows.to_rows(alloc)?;
    let mut keys = Vec::with_capacity(alloc, rows.len())?;
    push_order_keys(&mut keys, &rows)?;
    Ok(keys)
}
