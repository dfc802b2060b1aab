//! Refreshes that are read from their files, and a state of two orders.
ghost use Rattle.std.specs.Prelude.{◌≡◌};
ghost use Rattle.base_schema.specs.Kinds.{RowsAreOf};
ghost use Rattle.base_schema.specs.LineForm.{RowsFit};
ghost use Rattle.base_schema.specs.Tables.{columns_of};
ghost use Rattle.base_schema.specs.declared.table.TableName.{TableName};

use base_columns::Rows;
use base_refusals::RefreshFile;
use base_schema::TableName;
use base_value::{Row, Value};
use std::alloc::Global;
use std::process::Abort;
use store_file_reader::RefreshReader;
use store_state::{Refresh, State, apply};

/// Two orders of a base.
const ORDERS: &[u8] =
    b"7|1|O|10.00|1996-01-02|1-URGENT|K|0|x|\n8|1|F|20.00|1996-01-03|5-LOW|K|0|y|\n";

/// An order of a refresh, and its lineitem.
pub(crate) const NINE: &[u8] = b"9|2|O|5.00|1996-01-04|5-LOW|K|0|z|\n";

const NINE_ONE: &[u8] =
    b"9|1|1|1|1.00|5.00|0.00|0.00|N|O|1996-02-01|1996-02-02|1996-02-03|NONE|MAIL|w|\n";

/// The rows that a reader finds in a text.
fn rows_of<R: Abort>(rt: &R, mut reader: RefreshReader, text: &[u8]) -> Rows
    ensures fit { RowsFit reader.lines.form result }
    ensures kinds { (table : TableName) → reader.lines.form.columns ≡ columns_of table
        → RowsAreOf table result }
{
    reader.feed(text).expect(rt, "lines");
    reader.finish().expect(rt, "rows")
}

/// An insert of the rows of these files.
pub(crate) fn insert<R: Abort>(rt: &R, alloc: Global, orders: &[u8], lines: &[u8]) -> Refresh {
    let reader = RefreshReader::new(alloc, RefreshFile::Orders).expect(rt, "memory");
    let orders = rows_of(rt, reader, orders);
    let reader = RefreshReader::new(alloc, RefreshFile::Lineitem).expect(rt, "memory");
    let lineitems = rows_of(rt, reader, lines);
    Refresh::insert(alloc, orders, lineitems).expect(rt, "memory")
}

/// An insert of the third order.
pub(crate) fn insert_nine<R: Abort>(rt: &R, alloc: Global) -> Refresh {
    insert(rt, alloc, NINE, NINE_ONE)
}

/// A delete of it.
pub(crate) fn delete_nine<R: Abort>(rt: &R, alloc: Global) -> Refresh {
    let reader = RefreshReader::new(alloc, RefreshFile::Delete).expect(rt, "memory");
    let rows = rows_of(rt, reader, b"9");
    Refresh::delete_rows(alloc, &rows).expect(rt, "memory")
}

/// Two orders, and no other rows.
pub(crate) fn two_orders<R: Abort>(rt: &R, alloc: Global) -> State {
    let none = vec![in alloc;
        Rows::new(alloc),
        Rows::new(alloc),
        Rows::new(alloc),
        Rows::new(alloc),
        Rows::new(alloc),
        Rows::new(alloc),
        Rows::new(alloc),
        Rows::new(alloc),
    ];
    let mut state = State::new(alloc, none.expect(rt, "memory")).expect(rt, "memory");
    apply(alloc, &mut state, &insert(rt, alloc, ORDERS, b"")).expect(rt, "two orders");
    state
}

/// The number in the first column of a row; none where there is no number.
pub(crate) fn key_of(row: &[Value]) -> Option<i128> {
    match row {
        [Value::Number(_, key), ..] => Some(*key),
        _ => None,
    }
}

/// Whether rows have these keys.
pub(crate) fn have_keys(rows: &[Row], wanted: &[i128]) -> bool {
    let mut good = rows.len() == wanted.len();
    for (row, key) in rows.iter().zip(wanted) {
        good &= key_of(row.values()) == Some(*key);
    }
    good
}
