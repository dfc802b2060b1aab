//! The forms of lines.
ghost use Rattle.std.specs.Prelude.{◌≡◌, ◌==◌, option_map};
ghost use Rattle.std.specs.Char.{is_ascii_digit};
ghost use Rattle.std.specs.List.{list_all, position};
ghost use Rattle.app_job_file.specs.Lines.{is_visible, line_of, line_view, mention_after, mention_in};
ghost use Rattle.app_job_file.specs.Lines.{refresh_after, rest_after, set_number, word_after};
ghost use Rattle.app_job_file.specs.Lines.{word_of, words_after, words_of};

use crate::job::Mention;
use sql_ast::RefreshKind;
use store_gateway::SenderId;

/// What a line asks for.
#[derive(Clone, Copy, Debug)]
pub enum Line<'a> {
    /// A session of the script of this name.
    Session(&'a str),
    /// A journal in the file of this name.
    Journal(&'a str),
    /// A kept view of this name, whose query is in the script of that name.
    Keep(&'a str, &'a str),
    /// A refresh that is tried before the sessions.
    Before(Mention),
    /// A refresh that is tried beside them.
    Beside(Mention),
    /// A refresh that this sender sends beside them.
    Send(SenderId, Mention),
}

/// What follows these bytes at a line's front.
fn rest_after<'a>(front: &[u8], line: &'a [u8]) -> Option<&'a [u8]>
    ensures { option_map (λ rest. rest.now) result ≡ rest_after front.now line.now }
{
    if line.starts_with(front) {
        Some(&line[front.len()..])
    } else {
        None
    }
}

/// Whether each byte is one that a word can have.
fn are_visible(bytes: &[u8]) -> bool
    ensures { result ≡ list_all is_visible bytes.now }
{
    bytes.iter().all(|byte| 32 < *byte && *byte < 127)
}

/// The word that bytes are.
fn word_of(bytes: &[u8]) -> Option<&str>
    ensures { option_map (λ word. word.now) result ≡ word_of bytes.now }
{
    if bytes.is_empty() || !are_visible(bytes) {
        return None;
    }
    match str::from_utf8(bytes) {
        Ok(word) => Some(word),
        Err(_) => None,
    }
}

/// Whether each byte is a digit.
fn are_digits(bytes: &[u8]) -> bool
    ensures { result ≡ list_all is_ascii_digit bytes.now }
{
    bytes.iter().all(|byte| byte.is_ascii_digit())
}

/// The number that one to nine digits write.
fn set_number(digits: &[u8]) -> Option<u32>
    ensures { result ≡ set_number digits.now }
{
    if digits.is_empty() || digits.len() > 9 || !are_digits(digits) {
        return None;
    }
    let Ok(text) = str::from_utf8(digits) else {
        return None;
    };
    let Ok(number) = text.parse::<u32>() else {
        return None;
    };
    Some(number)
}

/// The refresh of that kind whose number follows these bytes.
fn mention_after(front: &[u8], change: RefreshKind, line: &[u8]) -> Option<Mention>
    ensures { result ≡ mention_after front.now change line.now }
{
    let set = set_number(rest_after(front, line)?)?;
    Some(Mention { change, set })
}

/// The refresh that bytes write: what it does, and the number of its set.
fn mention_in(bytes: &[u8]) -> Option<Mention>
    ensures { result ≡ mention_in bytes.now }
{
    if let Some(mention) = mention_after(b"insert ", RefreshKind::Insert, bytes) {
        return Some(mention);
    }
    mention_after(b"delete ", RefreshKind::Delete, bytes)
}

/// The refresh that follows these bytes at a line's front.
fn refresh_after(front: &[u8], line: &[u8]) -> Option<Mention>
    ensures { result ≡ refresh_after front.now line.now }
{
    mention_in(rest_after(front, line)?)
}

/// The word that follows these bytes at a line's front.
fn word_after<'a>(front: &[u8], line: &'a [u8]) -> Option<&'a str>
    ensures { option_map (λ name. name.now) result ≡ word_after front.now line.now }
{
    word_of(rest_after(front, line)?)
}

/// The place of the first space.
fn space_in(bytes: &[u8]) -> Option<usize>
    ensures { result ≡ position (λ byte. byte == 32) bytes.now }
{
    bytes.iter().position(|byte| *byte == b' ')
}

/// The two words that bytes are, with a space between them.
fn words_of(bytes: &[u8]) -> Option<(&str, &str)>
    ensures { option_map (λ words. (words.0.now, words.1.now)) result ≡ words_of bytes.now }
{
    let space = space_in(bytes)?;
    let first = word_of(&bytes[..space])?;
    let second = word_of(&bytes[space + 1..])?;
    Some((first, second))
}

/// The two words that follow these bytes at a line's front.
fn words_after<'a>(front: &[u8], line: &'a [u8]) -> Option<(&'a str, &'a str)>
    ensures { option_map (λ words. (words.0.now, words.1.now)) result
        ≡ words_after front.now line.now }
{
    words_of(rest_after(front, line)?)
}

/// What a line asks for, if it is of one of the forms.
pub fn line_of(line: &[u8]) -> Option<Line<'_>>
    ensures { option_map line_view result ≡ line_of line.now }
{
    if let Some(name) = word_after(b"session ", line) {
        return Some(Line::Session(name));
    }
    if let Some(name) = word_after(b"journal ", line) {
        return Some(Line::Journal(name));
    }
    if let Some((name, file)) = words_after(b"keep ", line) {
        return Some(Line::Keep(name, file));
    }
    if let Some(mention) = refresh_after(b"before ", line) {
        return Some(Line::Before(mention));
    }
    if let Some(mention) = refresh_after(b"beside ", line) {
        return Some(Line::Beside(mention));
    }
    if let Some(mention) = refresh_after(b"send1 ", line) {
        return Some(Line::Send(SenderId::First, mention));
    }
    let mention = refresh_after(b"send2 ", line)?;
    Some(Line::Send(SenderId::Second, mention))
}
