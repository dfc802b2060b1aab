//! Fields in their usual spelling, which are cut and read in one pass.
ghost use Rattle.std.specs.Prelude.{◌≡◌, ◌^◌, ◌<◌, ◌≤◌, IfSome, Some, false, true, length};
ghost use Rattle.std.specs.Prelude.{slice_index, take};
ghost use Rattle.std.specs.List.{position_or_len};
ghost use Rattle.std.specs.Str.{all_ascii_digits};
ghost use Rattle.std.specs.Str.Parse.{digits_value_after};
ghost use Rattle.base_text.specs.Printable.{AllPrintable, is_printable};
ghost use Rattle.base_date.specs.Date.{date_of};
ghost use Rattle.base_columns.specs.Fields.{field_value, IsPrintableField};
ghost use Rattle.base_decimal.specs.Written.{decimal_read};
ghost use Rattle.store_file_reader.specs.Field.{kind_field, spells_null};
ghost use Rattle.store_file_reader.specs.Line.{is_bar};
ghost use Rattle.store_file_reader.specs.Natural.{IsNatural};

use crate::field::spells_null;
use crate::line::place_of;
use base_columns::Field;
use base_date::CivilDate;
use base_decimal::Scale;
use base_schema::ColumnKind;

/// What the bytes before the first bar say in a column of that kind, and where they end, where they
/// are spelled as usual: digits that 63 bits hold, for a decimal maybe with a point before the
/// last two; a date; a text that doesn't spell null. Other spellings, and bad fields, are for
/// [`crate::field::read_field`].
#[tactic(auto, using(crate::proofs::PlainNumbers::held, crate::proofs::FieldEnds::holds, crate::proofs::Nulls::others))]
pub fn plain_field(kind: ColumnKind, text: &[u8]) -> Option<(Field<'_>, usize)>
    ensures value { IfSome result
        (λ f. kind_field kind (take f.1 text.now) ≡ Ok (field_value f.0)) }
    ensures other { IfSome result (λ f. spells_null (take f.1 text.now) ≡ false) }
    ensures end { IfSome result (λ f. position_or_len is_bar text.now ≡ f.1) }
    ensures inside { IfSome result (λ f. f.1 ≤ length text.now) }
    ensures printable { IfSome result (λ f. IsPrintableField f.0) }
{
    match kind {
        ColumnKind::Key | ColumnKind::Whole => {
            let (number, end) = plain_whole(text)?;
            Some((Field::Number(Scale::new(0), number), end))
        }
        ColumnKind::Decimal => {
            let (number, end) = plain_decimal(text)?;
            Some((Field::Number(Scale::new(2), number), end))
        }
        ColumnKind::Date => {
            let (date, end) = plain_date(text)?;
            Some((Field::Date(date), end))
        }
        ColumnKind::Text(most) => {
            let end = text_end(most, text)?;
            let field = &text[..end];
            if end > most as usize || spells_null(field) {
                return None;
            }
            Some((Field::Text(field), end))
        }
    }
}

// The number that one digit or more before the first bar write, and where they end.
#[tactic(auto, using(crate::proofs::PlainNumbers::read, crate::proofs::FieldEnds::digits_end))]
fn plain_whole(text: &[u8]) -> Option<(i64, usize)>
    ensures value { IfSome result (λ n. decimal_read (take n.1 text.now) 0 ≡ Ok n.0) }
    ensures natural { IfSome result (λ n. IsNatural n.0) }
    ensures end { IfSome result (λ n. position_or_len is_bar text.now ≡ n.1) }
    ensures inside { IfSome result (λ n. n.1 ≤ length text.now) }
{
    let (value, end) = digits_from(0, text)?;
    if end == 0 || !ends_at(text, end) {
        return None;
    }
    Some((value as i64, end))
}

// The coefficient at scale 2 of digits before the first bar, maybe with a point before the last two,
// and where they end.
fn plain_decimal(text: &[u8]) -> Option<(i64, usize)>
    ensures value { IfSome result (λ n. decimal_read (take n.1 text.now) 2 ≡ Ok n.0) }
    ensures natural { IfSome result (λ n. IsNatural n.0) }
    ensures end { IfSome result (λ n. position_or_len is_bar text.now ≡ n.1) }
    ensures inside { IfSome result (λ n. n.1 ≤ length text.now) }
{
    if let Some(cents) = plain_cents(text) {
        return Some(cents);
    }
    whole_cents(text)
}

// The most that is below 2^63 at scale 2.
const MOST_WHOLE: u64 = 92_233_720_368_547_758;

// The same of digits alone.
#[tactic(auto, using(crate::proofs::PlainNumbers::hundreds, crate::proofs::FieldEnds::digits_end))]
fn whole_cents(text: &[u8]) -> Option<(i64, usize)>
    ensures value { IfSome result (λ n. decimal_read (take n.1 text.now) 2 ≡ Ok n.0) }
    ensures natural { IfSome result (λ n. IsNatural n.0) }
    ensures end { IfSome result (λ n. position_or_len is_bar text.now ≡ n.1) }
    ensures inside { IfSome result (λ n. n.1 ≤ length text.now) }
{
    let (whole, end) = digits_from(0, text)?;
    if end == 0 || !ends_at(text, end) || whole > MOST_WHOLE {
        return None;
    }
    Some(((whole * 100) as i64, end))
}

// The coefficient at scale 2 of digits, a point and two digits before the first bar, and where they
// end.
#[tactic(auto, using(crate::proofs::PlainNumbers::natural_is))]
fn plain_cents(text: &[u8]) -> Option<(i64, usize)>
    ensures value { IfSome result (λ n. decimal_read (take n.1 text.now) 2 ≡ Ok n.0) }
    ensures natural { IfSome result (λ n. IsNatural n.0) }
    ensures end { IfSome result (λ n. position_or_len is_bar text.now ≡ n.1) }
    ensures inside { IfSome result (λ n. n.1 ≤ length text.now) }
{
    let (whole, point) = digits_from(0, text)?;
    if point == 0 || point == text.len() || text[point] != b'.' {
        return None;
    }
    let (value, places) = digits_from(whole, &text[point + 1..])?;
    if places != 2 || !ends_at(text, point + 3) {
        return None;
    }
    Some((value as i64, point + 3))
}

// How many bytes a date has.
const DATE_BYTES: usize = 10;

// The date that the bytes before the first bar spell, and where they end.
#[tactic(auto, using(crate::proofs::FieldEnds::date_end))]
fn plain_date(text: &[u8]) -> Option<(CivilDate, usize)>
    ensures value { IfSome result (λ d. date_of (take d.1 text.now) ≡ Some d.0) }
    ensures end { IfSome result (λ d. position_or_len is_bar text.now ≡ d.1) }
    ensures inside { IfSome result (λ d. d.1 ≤ length text.now) }
{
    if text.len() < DATE_BYTES || !ends_at(text, DATE_BYTES) {
        return None;
    }
    match CivilDate::read(&text[..DATE_BYTES]) {
        Ok(date) => Some((date, DATE_BYTES)),
        Err(_) => None,
    }
}

// The most bytes of a text that is often short.
const SHORT_TEXT: u8 = 50;

// Where the bytes before the first bar end, where all of them are printable.
fn text_end(most: u8, text: &[u8]) -> Option<usize>
    ensures printable { IfSome result (λ end. AllPrintable (take end text.now)) }
    ensures end { IfSome result (λ end. position_or_len is_bar text.now ≡ end) }
    ensures inside { IfSome result (λ end. end ≤ length text.now) }
{
    if most > SHORT_TEXT {
        long_text(text)
    } else {
        plain_text(text)
    }
}

// The same where a bar follows, which is sought first: quicker for a long text.
#[tactic(auto, using(crate::proofs::FieldEnds::long))]
fn long_text(text: &[u8]) -> Option<usize>
    ensures printable { IfSome result (λ end. AllPrintable (take end text.now)) }
    ensures end { IfSome result (λ end. position_or_len is_bar text.now ≡ end) }
    ensures inside { IfSome result (λ end. end ≤ length text.now) }
{
    let end = place_of(b'|', text)?;
    if are_printable(&text[..end]) {
        Some(end)
    } else {
        None
    }
}

// Whether all bytes are printable, without a branch on each.
#[tactic(auto, using(crate::proofs::FieldEnds::texts))]
fn are_printable(text: &[u8]) -> bool
    ensures { result ≡ true → AllPrintable text.now }
{
    let mut printable = true;
    for byte in text {
        printable &= (0x20..=0x7e).contains(byte);
    }
    printable
}

// The same, byte by byte: quicker for a short text.
#[tactic(auto, using(crate::proofs::FieldEnds::texts))]
fn plain_text(text: &[u8]) -> Option<usize>
    ensures printable { IfSome result (λ end. AllPrintable (take end text.now)) }
    ensures end { IfSome result (λ end. position_or_len is_bar text.now ≡ end) }
    ensures inside { IfSome result (λ end. end ≤ length text.now) }
{
    for (place, byte) in text.iter().enumerate() {
        if is_below_bar(*byte) {
            continue;
        }
        if *byte == b'|' {
            return Some(place);
        }
        if !(0x20..=0x7e).contains(byte) {
            return None;
        }
    }
    Some(text.len())
}

// Whether a byte is printable and less than the bar, as most bytes of texts are.
#[tactic(auto, using(crate::proofs::FieldEnds::below))]
fn is_below_bar(byte: u8) -> bool
    ensures printable { result ≡ true → is_printable byte ≡ true }
    ensures other { result ≡ true → is_bar byte ≡ false }
{
    (0x20..=0x7b).contains(&byte)
}

// Whether a field may end there: before a bar, or where the text ends.
fn ends_at(text: &[u8], end: usize) -> bool
    requires { end ≤ length text.now }
    ensures { result ≡ true → end < length text.now → is_bar (slice_index text.now end) ≡ true }
{
    end == text.len() || text[end] == b'|'
}

// The most that one digit more leaves below 2^63.
const MOST_BEFORE: u64 = 922_337_203_685_477_579;

// The number that the digits at the front write after those of another, and how many there are,
// where 63 bits hold it.
#[tactic(auto, using(crate::proofs::PlainNumbers::digits))]
fn digits_from(before: u64, text: &[u8]) -> Option<(u64, usize)>
    requires { before < 2 ^ 63 }
    ensures inside { IfSome result (λ d. d.1 ≤ length text.now) }
    ensures digits { IfSome result (λ d. all_ascii_digits (take d.1 text.now) ≡ true) }
    ensures value { IfSome result
        (λ d. d.0 ≡ digits_value_after 10 before (take d.1 text.now)) }
    ensures small { IfSome result (λ d. d.0 < 2 ^ 63) }
{
    let mut value = before;
    for (place, byte) in text.iter().enumerate() {
        if !byte.is_ascii_digit() {
            return Some((value, place));
        }
        if value > MOST_BEFORE {
            return None;
        }
        value = value * 10 + (*byte - b'0') as u64;
    }
    Some((value, text.len()))
}
