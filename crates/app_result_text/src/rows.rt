//! The rows of an answer.
ghost use Rattle.std.specs.Prelude.{◌≡◌, ◌<◌, ◌++◌, OnOk, IsTrue, drop, length};
ghost use Rattle.base_columns.specs.Batches.{row_at};
ghost use Rattle.app_result_text.specs.Answer.{barred, columns_written, has_no_fault};
ghost use Rattle.app_result_text.specs.Answer.{row_written};

use crate::cells::push_cell;
use base_columns::Batch;
use std::alloc::AllocError;

/// Appends the values of a row but the first, with a bar before each.
fn push_others(text: &mut Vec<u8>, batch: &Batch, i: usize) -> Result<(), AllocError>
    requires inside { i < length batch.now.rows }
    requires no_fault { IsTrue (has_no_fault (row_at batch.now.rows i).values) }
    ensures { OnOk result (text.new.items
        ≡ text.old.items ++ barred (drop 1 (row_at batch.now.rows i).values)) }
{
    for j in 1..batch.width() {
        text.push(b'|')?;
        push_cell(text, batch.column(j), i)?;
    }
    Ok(())
}

/// Appends the values of a row with a bar between two.
fn push_cells(text: &mut Vec<u8>, batch: &Batch, i: usize) -> Result<(), AllocError>
    requires inside { i < length batch.now.rows }
    requires no_fault { IsTrue (has_no_fault (row_at batch.now.rows i).values) }
    ensures { OnOk result (text.new.items
        ≡ text.old.items ++ columns_written (row_at batch.now.rows i).values) }
{
    if batch.width() == 0 {
        return Ok(());
    }
    push_cell(text, batch.column(0), i)?;
    push_others(text, batch, i)
}

/// Appends a row of an answer, which has no fault: bars between its columns and LF at its end. A
/// number has all its scale's digits, a date is YYYY-MM-DD, null is `\N`, and in a text a backslash
/// stands before each bar and each backslash.
pub fn push_row(text: &mut Vec<u8>, batch: &Batch, i: usize) -> Result<(), AllocError>
    requires inside { i < length batch.now.rows }
    requires no_fault { IsTrue (has_no_fault (row_at batch.now.rows i).values) }
    ensures ok { OnOk result (text.new.items
        ≡ text.old.items ++ row_written (row_at batch.now.rows i).values) }
{
    push_cells(text, batch, i)?;
    text.push(b'\n')?;
    Ok(())
}
