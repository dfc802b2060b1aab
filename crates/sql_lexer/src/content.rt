//! What the bytes of a token mean.
ghost use Rattle.std.specs.Prelude.{◌≡◌, ◌<◌, ◌+◌, ◌^◌, length, map, false, true, IfOk, IfSome};
ghost use Rattle.std.specs.Char.{to_ascii_lowercase};
ghost use Rattle.base_text.specs.Printable.{AllPrintable, first_unprintable};
ghost use Rattle.sql_lexer.specs.Bytes as byte;
ghost use Rattle.sql_lexer.specs.Forms as forms;
ghost use Rattle.sql_lexer.specs.Words.{reserved_kind};
ghost use Rattle.sql_lexer.specs.Making.{Makes, value_in};

use crate::fault::{LexFault, LexRefusal};
use crate::front::{Form, after, digits_len};
use crate::kind::{Kind, reserved};
use crate::token::Content;
use base_decimal::Scale;
use base_text::Text;
use std::alloc::{AllocError, Global};

/// The number that the digits write, if it is below 2^127.
fn coefficient(bytes: &[u8]) -> Option<u128>
    ensures { result ≡ value_in (forms.coefficient bytes.now) }
{
    let mut value: u128 = 0;
    'digits: for b in bytes {
        if !b.is_ascii_digit() {
            continue;
        }
        let digit = (*b - b'0') as u128;
        if value > (i128::MAX as u128 - digit) / 10 {
            return None;
        }
        value = 10 * value + digit;
    }
    Some(value)
}

/// How many digits stand after the point.
fn scale(bytes: &[u8]) -> usize
    ensures { result ≡ forms.scale bytes.now }
{
    bytes.len().saturating_sub(digits_len(bytes) + 1)
}

/// A number token, whose first byte stands at `at`.
fn number(bytes: &[u8], at: usize) -> Result<(Kind, Content), LexFault>
    ensures { Makes (forms.number_made (forms.coefficient bytes.now) (forms.scale bytes.now)) result
        at }
{
    let places = scale(bytes);
    if places > 18 {
        return Err(LexFault::Refused(LexRefusal::ScaleTooWide, at));
    }
    let Some(value) = coefficient(bytes) else {
        return Err(LexFault::Refused(LexRefusal::NumberTooWide, at));
    };
    let content = Content::Number(value as i128, Scale::new(places as u8));
    Ok((Kind::Number, content))
}

/// A reserved word or a name.
pub(crate) fn word(alloc: Global, bytes: &[u8]) -> Result<(Kind, Content), AllocError>
    requires { forms.all_are byte.is_word bytes.now ≡ true }
    ensures { IfOk result (λ made. made
        ≡ forms.word_made (reserved_kind (map to_ascii_lowercase bytes.now))
        (map to_ascii_lowercase bytes.now)) }
{
    let folded = bytes.to_ascii_lowercase(alloc)?;
    match reserved(&folded) {
        Some(kind) => Ok((kind, Content::Nothing)),
        None => {
            let name = Text::of_printable(alloc, &folded)?;
            Ok((Kind::Name, Content::Text(name)))
        }
    }
}

/// A text without its closing quote and with each doubled quote once, from the bytes after its
/// opening quote.
fn unquoted(alloc: Global, bytes: &[u8]) -> Result<Vec<u8>, AllocError>
    ensures { IfOk result (λ v. v.items ≡ forms.unquoted false bytes.now) }
{
    let mut found = Vec::with_capacity(alloc, bytes.len())?;
    let mut seen = false;
    'bytes: for b in bytes {
        if !seen && *b == b'\'' {
            seen = true;
            continue;
        }
        found.push(*b)?;
        seen = false;
    }
    Ok(found)
}

/// The place of the first byte that no text may have.
fn first_odd(bytes: &[u8]) -> Option<usize>
    ensures value { result ≡ first_unprintable bytes.now }
    ensures within { IfSome result (λ place. place < length bytes.now) }
{
    bytes.iter().position(|byte| !(0x20..=0x7e).contains(byte))
}

/// A text token, whose first byte stands at `at`.
fn text(alloc: Global, bytes: &[u8], at: usize) -> Result<(Kind, Content), LexFault>
    requires some { 0 < length bytes.now }
    requires place { at + length bytes.now < 2 ^ 64 }
    ensures { Makes (forms.text_made (first_unprintable bytes.now) bytes.now) result at }
{
    match first_odd(bytes) {
        Some(place) => Err(LexFault::Refused(LexRefusal::BadByte, at + place)),
        None => {
            let content = unquoted(alloc, after(bytes, 1))?;
            let text = Text::of_printable(alloc, &content)?;
            Ok((Kind::Text, Content::Text(text)))
        }
    }
}

/// The kind and content of a token, whose first byte stands at `at`.
pub(crate) fn make(
    alloc: Global,
    form: Form,
    bytes: &[u8],
    at: usize,
) -> Result<(Kind, Content), LexFault>
    requires token { forms.IsToken form bytes.now }
    requires place { at + length bytes.now < 2 ^ 64 }
    ensures { Makes (forms.made form bytes.now) result at }
{
    match form {
        Form::Word => Ok(word(alloc, bytes)?),
        Form::Number => number(bytes, at),
        Form::Text => text(alloc, bytes, at),
        Form::Symbol(kind) => Ok((kind, Content::Nothing)),
    }
}
