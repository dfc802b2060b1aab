//! The longest token at the front of some bytes.
ghost use Rattle.std.specs.Prelude.{◌≡◌, ◌≤◌, ◌<◌, ◌&&◌, ◌==◌, not, length, drop, false, IfSome};
ghost use Rattle.std.specs.Prelude.{IfNone};
ghost use Rattle.std.specs.List.{prefix_len};
ghost use Rattle.std.specs.Char.{is_ascii_digit};
ghost use Rattle.sql_lexer.specs.Bytes as byte;
ghost use Rattle.sql_lexer.specs.Forms as forms;
ghost use Rattle.sql_lexer.specs.Forms.{IsLongest, IsNone};
ghost use Rattle.sql_lexer.specs.Fronts as fronts;

use crate::kind::Kind;

/// The form of a token's bytes.
#[derive(Clone, Copy, Debug, PartialEq, Eq)]
pub enum Form {
    /// A letter or an underscore, then letters, digits and underscores.
    Word,
    /// `9`, `9.9` or `.9`.
    Number,
    /// Bytes between quotes, a quote doubled.
    Text,
    /// A symbol of one byte or two.
    Symbol(Kind),
}

pub(crate) fn is_letter(b: u8) -> bool
    ensures { result ≡ byte.is_letter b }
{
    b.is_ascii_alphabetic() || b == b'_'
}

pub(crate) fn is_word(b: u8) -> bool
    ensures { result ≡ byte.is_word b }
{
    is_letter(b) || b.is_ascii_digit()
}

/// The bytes from this one on.
pub(crate) fn after(bytes: &[u8], n: usize) -> &[u8]
    requires { n ≤ length bytes.now }
    ensures { result.now ≡ drop n bytes.now }
{
    let (_, rest) = bytes.split_at(n);
    rest
}

fn word_len(bytes: &[u8]) -> usize
    ensures value { result ≡ prefix_len byte.is_word bytes.now }
    ensures within { result ≤ length bytes.now }
{
    bytes.iter().take_while(|b| is_word(**b)).count()
}

pub(crate) fn digits_len(bytes: &[u8]) -> usize
    ensures value { result ≡ prefix_len is_ascii_digit bytes.now }
    ensures within { result ≤ length bytes.now }
{
    bytes.iter().take_while(|b| b.is_ascii_digit()).count()
}

/// A point and the digits after it; nothing where there are none.
fn fraction_len(bytes: &[u8]) -> usize
    ensures value { result ≡ fronts.fraction_len bytes.now }
    ensures within { result ≤ length bytes.now }
{
    match bytes {
        [b'.', rest @ ..] => {
            let digits = digits_len(rest);
            if digits == 0 { 0 } else { 1 + digits }
        }
        _ => 0,
    }
}

/// What comes of a number after its first digit.
#[tactic(auto, using(crate::proofs::Runs::number_split))]
fn number_len(bytes: &[u8]) -> usize
    ensures value { result ≡ fronts.number_len bytes.now }
    ensures within { result ≤ length bytes.now }
{
    let whole = digits_len(bytes);
    whole + fraction_len(after(bytes, whole))
}

/// Whether a text has ended before this byte: a quote stands there, and no other follows.
fn has_ended(seen: bool, b: u8) -> bool
    ensures { result ≡ (seen && not (b == 39)) }
{
    seen && b != b'\''
}

/// Whether this byte is a quote that ends the text unless another follows.
fn may_end(seen: bool, b: u8) -> bool
    ensures { result ≡ (not seen && b == 39) }
{
    !seen && b == b'\''
}

/// What comes of a text after its opening quote, if it ends.
fn text_len(bytes: &[u8]) -> Option<usize>
    ensures value { result ≡ fronts.text_len false bytes.now }
    ensures within { IfSome result (λ n. n ≤ length bytes.now) }
{
    // Whether a quote stands before, which ends the text unless another one follows.
    let mut seen = false;
    let mut at = 0;
    'bytes: for b in bytes {
        if has_ended(seen, *b) {
            return Some(at);
        }
        seen = may_end(seen, *b);
        at += 1;
    }
    if seen { Some(at) } else { None }
}

fn symbol(b: u8) -> Option<Kind>
    ensures { result ≡ forms.symbol b }
{
    match b {
        b'(' => Some(Kind::OpenParen),
        b')' => Some(Kind::CloseParen),
        b',' => Some(Kind::Comma),
        b';' => Some(Kind::Semicolon),
        b'.' => Some(Kind::Point),
        b'*' => Some(Kind::Star),
        b'+' => Some(Kind::Plus),
        b'-' => Some(Kind::Minus),
        b'/' => Some(Kind::Slash),
        b'=' => Some(Kind::Equal),
        b'<' => Some(Kind::Less),
        b'>' => Some(Kind::Greater),
        _ => None,
    }
}

fn long_symbol(b: u8, c: u8) -> Option<Kind>
    ensures { result ≡ forms.long_symbol b c }
{
    match (b, c) {
        (b'<', b'>') => Some(Kind::NotEqual),
        (b'<', b'=') => Some(Kind::LessOrEqual),
        (b'>', b'=') => Some(Kind::GreaterOrEqual),
        _ => None,
    }
}

fn longer(long: Option<Kind>, short: Option<Kind>) -> Option<(Form, usize)>
    ensures { result ≡ fronts.longer long short }
{
    match (long, short) {
        (Some(kind), _) => Some((Form::Symbol(kind), 2)),
        (None, Some(kind)) => Some((Form::Symbol(kind), 1)),
        (None, None) => None,
    }
}

fn symbol_front(b: u8, rest: &[u8]) -> Option<(Form, usize)>
    ensures { result ≡ fronts.symbol_front b rest.now }
{
    match rest {
        [] => longer(None, symbol(b)),
        [c, ..] => longer(long_symbol(b, *c), symbol(b)),
    }
}

fn front_of(bytes: &[u8]) -> Option<(Form, usize)>
    ensures { result ≡ fronts.front_of bytes.now }
{
    let [b, rest @ ..] = bytes else {
        return None;
    };
    if is_letter(*b) {
        return Some((Form::Word, word_len(rest) + 1));
    }
    if b.is_ascii_digit() {
        return Some((Form::Number, number_len(rest) + 1));
    }
    if *b == b'\'' {
        return match text_len(rest) {
            Some(len) => Some((Form::Text, len + 1)),
            None => None,
        };
    }
    let fraction = fraction_len(bytes);
    if fraction > 0 {
        return Some((Form::Number, fraction));
    }
    symbol_front(*b, rest)
}

/// The longest token at the front, and how many bytes it has.
pub(crate) fn front(bytes: &[u8]) -> Option<(Form, usize)>
    ensures found { IfSome result (λ t. IsLongest t.0 t.1 bytes.now) }
    ensures some { IfSome result (λ t. (0 < t.1) × (t.1 ≤ length bytes.now)) }
    ensures none { IfNone result (IsNone bytes.now) }
{
    front_of(bytes)
}
