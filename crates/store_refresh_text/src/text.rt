//! The texts of a refresh: rows and keys as the lines of files.
ghost use Rattle.std.specs.Prelude.{◌≡◌, ◌<◌, ◌++◌, [], ◌∷◌, OnOk, length};
ghost use Rattle.base_columns.specs.Batches.{row_at};
ghost use Rattle.store_refresh_text.specs.Text.{fields_written, keys_text, row_written, rows_text};

use crate::values::{push_field, push_number};
use base_columns::{Batch, Rows, Segment};
use base_decimal::Scale;
use std::alloc::AllocError;

/// Appends the fields of a line, a bar after each.
fn push_fields(text: &mut Vec<u8>, batch: &Batch, i: usize) -> Result<(), AllocError>
    requires { i < length batch.now.rows }
    ensures { OnOk result (text.new.items
        ≡ text.old.items ++ fields_written (row_at batch.now.rows i).values) }
{
    for j in 0..batch.width() {
        push_field(text, batch.column(j), i)?;
        text.push(b'|')?;
    }
    Ok(())
}

/// Appends the line of a row.
fn push_row(text: &mut Vec<u8>, batch: &Batch, i: usize) -> Result<(), AllocError>
    requires { i < length batch.now.rows }
    ensures { OnOk result (text.new.items
        ≡ text.old.items ++ row_written (row_at batch.now.rows i).values) }
{
    push_fields(text, batch, i)?;
    text.push(b'\n')?;
    Ok(())
}

/// Appends the lines of a segment's rows.
fn push_segment(text: &mut Vec<u8>, segment: &Segment) -> Result<(), AllocError>
    ensures { OnOk result (text.new.items ≡ text.old.items ++ rows_text segment.now) }
{
    let batch = segment.batch();
    for i in 0..segment.len() {
        push_row(text, batch, i)?;
    }
    Ok(())
}

/// Appends the lines of rows.
pub fn push_rows(text: &mut Vec<u8>, rows: &Rows) -> Result<(), AllocError>
    ensures { OnOk result (text.new.items ≡ text.old.items ++ rows_text rows.now) }
{
    let segments = rows.segments();
    for segment in segments {
        push_segment(text, segment)?;
    }
    Ok(())
}

/// Appends the line of a key.
fn push_key(text: &mut Vec<u8>, key: i64) -> Result<(), AllocError>
    ensures { OnOk result (text.new.items ≡ text.old.items ++ keys_text (key ∷ [])) }
{
    push_number(text, key, Scale::WHOLE)?;
    text.push(b'\n')?;
    Ok(())
}

/// Appends the lines of keys, one key each.
pub fn push_keys(text: &mut Vec<u8>, keys: &[i64]) -> Result<(), AllocError>
    ensures { OnOk result (text.new.items ≡ text.old.items ++ keys_text keys.now) }
{
    for key in keys {
        push_key(text, *key)?;
    }
    Ok(())
}
