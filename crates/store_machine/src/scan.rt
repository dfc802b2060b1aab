//! Pieces of a version's tables, and how a session's pieces are joined.
ghost use Rattle.std.specs.Prelude.{◌≡◌, ◌++◌, [], nat_lt, length, IfOk, MatchOption, None, OnOk};
ghost use Rattle.std.specs.Prelude.{Some, if◌then◌else◌, option_map, slice_index_or};
ghost use Rattle.std.specs.Vec.{vec_items};
ghost use Rattle.base_schema.specs.State.{table_rows};
ghost use Rattle.store_machine.specs.Machine.{lengths_of, piece_rows, pieces_of, scan_from};

use crate::cut::piece;
use crate::session::Piece;
use crate::steps::Cuts;
use base_schema::TableName;
use base_value::Row;
use std::alloc::{AllocError, Global};
use store_state::{State, place};

/// Appends shares of rows.
fn push_rows(to: &mut Vec<Row>, rows: &[Row]) -> Result<(), AllocError>
    ensures { OnOk result (to.new.items ≡ to.old.items ++ rows.now) }
{
    for row in rows {
        to.push(row.clone()?)?;
    }
    Ok(())
}

/// The piece of a number of a table, if there is one.
pub(crate) fn scanned_piece(
    alloc: Global,
    state: &State,
    cuts: &Cuts,
    table: TableName,
    number: usize,
) -> Result<Option<Piece>, AllocError>
    ensures { IfOk result (λ found. found
        ≡ (if nat_lt number (length (lengths_of cuts.now table)) then Some
        (record {
          table = table;
          number = number;
          rows = slice_index_or (pieces_of (lengths_of cuts.now table) (table_rows state.now table))
              number [];
        }) else None)) }
{
    let lengths = cuts.of(table);
    if number >= lengths.len() {
        return Ok(None);
    }
    let all = state.rows(alloc, table)?;
    let mut rows = Vec::new(alloc);
    push_rows(&mut rows, piece(all.as_slice(), lengths, number))?;
    Ok(Some(Piece {
        table,
        number,
        rows,
    }))
}

/// The rows of the first piece of that table and number.
fn piece_rows(pieces: &[Piece], table: TableName, number: usize) -> Option<&[Row]>
    ensures { MatchOption result (piece_rows pieces.now table number ≡ None)
        (λ rows. piece_rows pieces.now table number ≡ Some rows.now) }
{
    match pieces {
        [] => None,
        [first, rest @ ..] => {
            if place(first.table) == place(table) && first.number == number {
                Some(first.rows.as_slice())
            } else {
                piece_rows(rest, table, number)
            }
        }
    }
}

/// The pieces of a table joined by number, one for each length; none where one was not scanned.
pub(crate) fn joined_pieces(
    alloc: Global,
    pieces: &[Piece],
    lengths: &[usize],
    table: TableName,
) -> Result<Option<Vec<Row>>, AllocError>
    ensures { IfOk result (λ rows. option_map vec_items rows
        ≡ scan_from pieces.now table 0 lengths.now) }
{
    let mut all = Vec::new(alloc);
    for number in 0..lengths.len() {
        match piece_rows(pieces, table, number) {
            Some(rows) => push_rows(&mut all, rows)?,
            None => return Ok(None),
        }
    }
    Ok(Some(all))
}
