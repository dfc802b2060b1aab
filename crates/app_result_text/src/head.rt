//! Lines of statements.
ghost use Rattle.std.specs.Prelude.{◌≡◌, ◌++◌, IfOk, OnOk};
ghost use Rattle.app_result_text.specs.Answer.{header};
ghost use Rattle.app_result_text.specs.Lines.{accepted_text, done_text, line_start, refusal_text};
ghost use Rattle.app_result_text.specs.Version.{version_refusal_text};

use crate::refusal::put_refusal;
use crate::version::{VersionRefusal, put_version_refusal};
use base_refusals::Refusal;
use itoa::Buffer;
use std::alloc::{AllocError, Global};

/// Appends the beginning of a statement's line: its number in its script, from 1, and the version
/// over which it was asked.
fn push_start(text: &mut Vec<u8>, statement: u64, version: u64) -> Result<(), AllocError>
    ensures { OnOk result (text.new.items ≡ text.old.items ++ line_start statement version) }
{
    let mut buffer = Buffer::new();
    text.push(b'[')?;
    text.extend_from_slice(buffer.format(statement).as_bytes())?;
    text.extend_from_slice(b"] version ")?;
    text.extend_from_slice(buffer.format(version).as_bytes())
}

/// The line before the rows of an answer: the statement's number in its script, from 1, the version
/// over which it was asked, and how many rows it has. The line has its LF.
pub fn header(alloc: Global, statement: u64, version: u64, rows: u64) -> Result<Vec<u8>, AllocError>
    ensures { IfOk result (λ text. text.items ≡ header statement version rows) }
{
    let mut buffer = Buffer::new();
    let mut text = Vec::new(alloc);
    push_start(&mut text, statement, version)?;
    text.extend_from_slice(b" rows ")?;
    text.extend_from_slice(buffer.format(rows).as_bytes())?;
    text.push(b'\n')?;
    Ok(text)
}

/// The line of a view that was made or dropped, with its LF.
pub fn done_text(alloc: Global, statement: u64, version: u64) -> Result<Vec<u8>, AllocError>
    ensures { IfOk result (λ text. text.items ≡ done_text statement version) }
{
    let mut text = Vec::new(alloc);
    push_start(&mut text, statement, version)?;
    text.extend_from_slice(b" done\n")?;
    Ok(text)
}

/// The line of an accepted refresh, with its LF: `version` is the one before it, `after` the one
/// that it made.
pub fn accepted_text(
    alloc: Global,
    statement: u64,
    version: u64,
    after: u64,
) -> Result<Vec<u8>, AllocError>
    ensures { IfOk result (λ text. text.items ≡ accepted_text statement version after) }
{
    let mut buffer = Buffer::new();
    let mut text = Vec::new(alloc);
    push_start(&mut text, statement, version)?;
    text.extend_from_slice(b" accepted ")?;
    text.extend_from_slice(buffer.format(after).as_bytes())?;
    text.push(b'\n')?;
    Ok(text)
}

/// The line of a refused statement, with its LF: the refusal's number and name, then its arguments.
pub fn refusal_text(
    alloc: Global,
    statement: u64,
    version: u64,
    refusal: &Refusal,
) -> Result<Vec<u8>, AllocError>
    ensures { IfOk result (λ text. text.items ≡ refusal_text statement version refusal.now) }
{
    let mut text = Vec::new(alloc);
    push_start(&mut text, statement, version)?;
    text.push(b' ')?;
    put_refusal(&mut text, refusal)?;
    text.push(b'\n')?;
    Ok(text)
}

/// The line of a statement that is refused for the version that it names, with its LF: the
/// refusal's number and name, then that version. `version` is the one over which the statement
/// began.
pub fn version_refusal_text(
    alloc: Global,
    statement: u64,
    version: u64,
    refusal: VersionRefusal,
) -> Result<Vec<u8>, AllocError>
    ensures { IfOk result (λ text. text.items ≡ version_refusal_text statement version refusal) }
{
    let mut text = Vec::new(alloc);
    push_start(&mut text, statement, version)?;
    text.push(b' ')?;
    put_version_refusal(&mut text, refusal)?;
    text.push(b'\n')?;
    Ok(text)
}
