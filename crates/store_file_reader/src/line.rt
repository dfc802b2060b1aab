//! One line: its fields.
ghost use Rattle.std.specs.Prelude.{◌≡◌, ◌==◌, ◌+◌, ◌<◌, ◌≤◌, ◌^◌, IfErr, IfOk, IfSome, IsTrue};
ghost use Rattle.std.specs.Prelude.{OnOk, is_some, true, length, map, position};
ghost use Rattle.std.specs.List.{All, before_first, after_first};
ghost use Rattle.base_columns.specs.Fields.{field_value, IsPrintableField};
ghost use Rattle.store_file_reader.specs.declared.error.FieldsError.{FieldsError};
ghost use Rattle.store_file_reader.specs.Error.{Blames};
ghost use Rattle.base_schema.specs.Kinds.{can_hold_row};
ghost use Rattle.store_file_reader.specs.Field.{column_value};
ghost use Rattle.store_file_reader.specs.Line.{is_bar, has_fields, IsWholeCut, without_end};
ghost use Rattle.store_file_reader.specs.Line.{line_text};
ghost use Rattle.store_file_reader.specs.Line.{values_of, row_of};

use crate::error::FieldsError;
use crate::field::read_field;
use crate::plain::plain_field;
use base_columns::Field;
use base_refusals::LineFault;
use base_schema::LineColumn;
use memchr::memchr;

// The bytes of a line without the LF at its end and one CR directly before that.
fn line_text(line: &[u8]) -> &[u8]
    ensures { result.now ≡ line_text line.now }
{
    without_end(without_end(line, b'\n'), b'\r')
}

// The bytes without that one at their end, if it stands there.
fn without_end(text: &[u8], byte: u8) -> &[u8]
    ensures { result.now ≡ without_end byte text.now }
{
    if text.ends_with(&[byte]) {
        &text[..text.len() - 1]
    } else {
        text
    }
}

/// Puts the fields of the row that a line says in place of those that were there: one for each of
/// these columns. The line may have its end.
#[tactic(auto, using(crate::proofs::Rows::held_rows))]
pub fn put_line<'a>(
    fields: &mut Vec<Field<'a>>,
    columns: &[LineColumn],
    line: &'a [u8],
) -> Result<(), FieldsError>
    ensures ok { OnOk result
        (row_of columns.now (line_text line.now) ≡ Ok (map field_value fields.new.items)) }
    ensures printable { OnOk result (All IsPrintableField fields.new.items) }
    ensures held { OnOk result
        (IsTrue (can_hold_row columns.now (map field_value fields.new.items))) }
    ensures err { IfErr result (Blames (row_of columns.now (line_text line.now))) }
{
    put_row(fields, columns, line_text(line))?;
    Ok(())
}

// Puts the fields of a line's row. A good line is read once; only of another its bars are counted,
// since their number comes before what is wrong with a field.
fn put_row<'a>(
    fields: &mut Vec<Field<'a>>,
    columns: &[LineColumn],
    line: &'a [u8],
) -> Result<(), FieldsError>
    ensures ok { OnOk result
        (row_of columns.now line.now ≡ Ok (map field_value fields.new.items)) }
    ensures printable { OnOk result (All IsPrintableField fields.new.items) }
    ensures err { IfErr result (Blames (row_of columns.now line.now)) }
{
    if put_good(fields, columns, line)? {
        return Ok(());
    }
    if !has_fields(columns.len(), line) {
        return Err(FieldsError::Bad(LineFault::FieldCount));
    }
    put_fields(fields, columns, line)?;
    Ok(())
}

// Puts the fields of a line's row, where the line is good; whether it is. After `false` they are of
// no use.
#[tactic(auto, using(crate::proofs::BarCuts::good))]
fn put_good<'a>(
    fields: &mut Vec<Field<'a>>,
    columns: &[LineColumn],
    line: &'a [u8],
) -> Result<bool, FieldsError>
    ensures row { IfOk result
        (λ good. good ≡ true → row_of columns.now line.now
        ≡ Ok (map field_value fields.new.items)) }
    ensures printable { IfOk result (λ good. good ≡ true → All IsPrintableField fields.new.items) }
    ensures err { IfErr result (λ error. error ≡ FieldsError.OutOfMemory) }
{
    fields.clear();
    let mut rest = line;
    let mut bars: usize = 0;
    for column in columns {
        let Some((field, more, found)) = next_field(*column, rest) else {
            return Ok(false);
        };
        if fields.push(field).is_err() {
            return Err(FieldsError::OutOfMemory);
        }
        rest = more;
        bars += usize::from(found);
    }
    Ok(are_whole(columns.len(), bars, rest))
}

// The field before the first bar in a column, the bytes after that bar, and whether
// there is one; none where the field is bad.
#[tactic(auto, using(crate::proofs::FieldEnds::cuts))]
fn next_field(column: LineColumn, text: &[u8]) -> Option<(Field<'_>, &[u8], bool)>
    ensures value { IfSome result
        (λ f. column_value column (before_first is_bar text.now) ≡ Ok (field_value f.0)) }
    ensures printable { IfSome result (λ f. IsPrintableField f.0) }
    ensures rest { IfSome result (λ f. f.1.now ≡ after_first is_bar text.now) }
    ensures found { IfSome result (λ f. f.2 ≡ is_some (position is_bar text.now)) }
{
    let Some((field, end)) = plain_field(column.kind, text) else {
        return other_field(column, text);
    };
    if end < text.len() {
        Some((field, &text[end + 1..], true))
    } else {
        Some((field, &[], false))
    }
}

// `next_field` of a field in any spelling.
fn other_field(column: LineColumn, text: &[u8]) -> Option<(Field<'_>, &[u8], bool)>
    ensures value { IfSome result
        (λ f. column_value column (before_first is_bar text.now) ≡ Ok (field_value f.0)) }
    ensures printable { IfSome result (λ f. IsPrintableField f.0) }
    ensures rest { IfSome result (λ f. f.1.now ≡ after_first is_bar text.now) }
    ensures found { IfSome result (λ f. f.2 ≡ is_some (position is_bar text.now)) }
{
    let (bytes, more, found) = cut_at_bar(text);
    match read_field(column, bytes) {
        Ok(field) => Some((field, more, found)),
        Err(_) => None,
    }
}

// Whether `bars` bars part `columns` fields, before this rest.
fn are_whole(columns: usize, bars: usize, rest: &[u8]) -> bool
    requires { bars ≤ columns }
    ensures { result ≡ true → IsWholeCut columns bars rest.now }
{
    match columns - bars {
        0 => 0 < bars && rest.is_empty(),
        1 => true,
        _ => false,
    }
}

// Whether bars part a line into that many fields; one may stand after the last field.
fn has_fields(columns: usize, line: &[u8]) -> bool
    ensures { result ≡ has_fields columns line.now }
{
    let bars = line.iter().filter(|byte| **byte == b'|').count();
    bars + 1 == columns || bars == columns && line.ends_with(b"|")
}

// Puts what the bytes between bars say in these columns.
#[tactic(auto, using(crate::proofs::Cuts::fields))]
fn put_fields<'a>(
    fields: &mut Vec<Field<'a>>,
    columns: &[LineColumn],
    line: &'a [u8],
) -> Result<(), FieldsError>
    ensures ok { OnOk result
        (values_of columns.now line.now ≡ Ok (map field_value fields.new.items)) }
    ensures printable { OnOk result (All IsPrintableField fields.new.items) }
    ensures err { IfErr result (Blames (values_of columns.now line.now)) }
{
    fields.clear();
    let mut rest = line;
    for column in columns {
        let (bytes, more, _) = cut_at_bar(rest);
        match read_field(*column, bytes) {
            Ok(field) => {
                if fields.push(field).is_err() {
                    return Err(FieldsError::OutOfMemory);
                }
            }
            Err(fault) => return Err(FieldsError::Bad(fault)),
        }
        rest = more;
    }
    Ok(())
}

// The bytes before the first bar, those after it, and whether there is one.
#[tactic(auto, using(crate::proofs::Cuts::cuts))]
fn cut_at_bar(text: &[u8]) -> (&[u8], &[u8], bool)
    ensures field { result.0.now ≡ before_first is_bar text.now }
    ensures rest { result.1.now ≡ after_first is_bar text.now }
    ensures found { result.2 ≡ is_some (position is_bar text.now) }
{
    match place_of(b'|', text) {
        Some(place) => (&text[..place], &text[place + 1..], true),
        None => (text, &[], false),
    }
}

/// The first place of a byte.
#[tactic(auto, using(crate::proofs::FirstBytes::first_byte))]
pub fn place_of(sought: u8, text: &[u8]) -> Option<usize>
    ensures value { result ≡ position (λ byte. byte == sought) text.now }
    ensures bound { IfSome result (λ place. place < length text.now) }
    ensures fits { IfSome result (λ place. place + 1 < 2 ^ 64) }
{
    memchr(sought, text)
}
