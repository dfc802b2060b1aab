//! Refusals as lines say them.
ghost use Rattle.std.specs.Prelude.{◌≡◌, ◌++◌, OnErr, OnOk};
ghost use Rattle.app_result_text.specs.Refusal.{arguments, cause_arguments, file_name, key_written};
ghost use Rattle.app_result_text.specs.Refusal.{line_written, malformed_written, reason_written};
ghost use Rattle.app_result_text.specs.Refusal.{refusal_written};
ghost use Rattle.app_result_text.specs.Refusal.{tagged, template_arguments};

use base_decimal::{Scale, push_decimal};
use base_refusals::{Cause, LineRefusal, RefreshFile, Refusal, TemplateRefusal};
use itoa::Buffer;
use std::alloc::AllocError;

/// Appends a space and a key.
fn push_key(text: &mut Vec<u8>, key: i64) -> Result<(), AllocError>
    ensures { OnOk result (text.new.items ≡ text.old.items ++ key_written key) }
{
    text.push(b' ')?;
    push_decimal(text, key as i128, Scale::WHOLE)
}

/// Appends the key of a lineitem's order and its line number, a space before each.
fn push_line(text: &mut Vec<u8>, key: i64, line: i64) -> Result<(), AllocError>
    ensures { OnOk result (text.new.items ≡ text.old.items ++ line_written key line) }
{
    push_key(text, key)?;
    push_key(text, line)
}

/// Appends a space, a number, a space and the name that goes with it.
pub(crate) fn push_tagged(text: &mut Vec<u8>, number: u8, name: &str) -> Result<(), AllocError>
    ensures { OnOk result (text.new.items ≡ text.old.items ++ tagged number name.now) }
{
    let mut buffer = Buffer::new();
    text.push(b' ')?;
    text.extend_from_slice(buffer.format(number).as_bytes())?;
    text.push(b' ')?;
    text.extend_from_slice(name.as_bytes())
}

/// Appends the name of a file of a refresh set, without its folder.
fn push_file_name(text: &mut Vec<u8>, file: RefreshFile, set: u32) -> Result<(), AllocError>
    ensures { OnOk result (text.new.items ≡ text.old.items ++ file_name file set) }
{
    let mut buffer = Buffer::new();
    text.extend_from_slice(file.prefix().as_bytes())?;
    text.extend_from_slice(buffer.format(set).as_bytes())
}

/// Appends where and how a refresh file is malformed, a space before each part.
fn push_malformed(
    text: &mut Vec<u8>,
    file: RefreshFile,
    set: u32,
    refusal: LineRefusal,
) -> Result<(), AllocError>
    ensures { OnOk result (text.new.items ≡ text.old.items ++ malformed_written file set refusal) }
{
    let mut buffer = Buffer::new();
    text.push(b' ')?;
    push_file_name(text, file, set)?;
    text.extend_from_slice(b" line ")?;
    text.extend_from_slice(buffer.format(refusal.line).as_bytes())?;
    push_tagged(text, refusal.fault.number(), refusal.fault.name())
}

/// Appends the arguments of a refresh's cause, a space before each.
fn push_cause(text: &mut Vec<u8>, cause: Cause) -> Result<(), AllocError>
    ensures { OnOk result (text.new.items ≡ text.old.items ++ cause_arguments cause) }
{
    match cause {
        Cause::OrderExists(key) => push_key(text, key),
        Cause::OrderTwice(key) => push_key(text, key),
        Cause::LineTwice(key, line) => push_line(text, key, line),
        Cause::StrayLine(key) => push_key(text, key),
        Cause::UnknownOrder(key) => push_key(text, key),
        Cause::KeyTwice(key) => push_key(text, key),
        Cause::LineExists(key, line) => push_line(text, key, line),
        Cause::Malformed(file, set, refusal) => push_malformed(text, file, set, refusal),
    }
}

/// Appends the arguments of a template's refusal, a space before each.
fn push_template(text: &mut Vec<u8>, refusal: TemplateRefusal) -> Result<(), AllocError>
    ensures { OnOk result (text.new.items ≡ text.old.items ++ template_arguments refusal) }
{
    match refusal {
        TemplateRefusal::NoSuchQuery | TemplateRefusal::WrongCount => Ok(()),
        TemplateRefusal::WrongKind(place) => push_key(text, place as i64),
    }
}

/// Appends the arguments of a refusal, a space before each.
fn push_arguments(text: &mut Vec<u8>, refusal: &Refusal) -> Result<(), AllocError>
    ensures { OnOk result (text.new.items ≡ text.old.items ++ arguments refusal.now) }
{
    match refusal {
        Refusal::Bind(_) | Refusal::ViewExists | Refusal::UnknownView => Ok(()),
        Refusal::Fault(kind) => push_tagged(text, kind.number(), kind.name()),
        Refusal::Template(refusal) => push_template(text, *refusal),
        Refusal::Refresh(cause) => push_cause(text, *cause),
    }
}

/// Appends the refusal's number and name, and its arguments, a space before each, as far as memory
/// goes.
pub fn put_reason(text: &mut Vec<u8>, refusal: &Refusal) -> Result<(), AllocError>
    ensures { OnOk result (text.new.items ≡ text.old.items ++ reason_written refusal.now) }
{
    push_tagged(text, refusal.number(), refusal.name())?;
    push_arguments(text, refusal)
}

/// Appends the word `refused`, the refusal's number and name, and its arguments, parted by spaces,
/// as far as memory goes.
pub(crate) fn put_refusal(text: &mut Vec<u8>, refusal: &Refusal) -> Result<(), AllocError>
    ensures { OnOk result (text.new.items ≡ text.old.items ++ refusal_written refusal.now) }
{
    text.extend_from_slice(b"refused")?;
    put_reason(text, refusal)
}

/// Appends the word `refused`, the refusal's number and name, and its arguments, parted by spaces.
/// Where memory runs out, the text stays as it was.
pub fn push_refusal(text: &mut Vec<u8>, refusal: &Refusal) -> Result<(), AllocError>
    ensures ok { OnOk result (text.new.items ≡ text.old.items ++ refusal_written refusal.now) }
    ensures err { OnErr result (text.new.items ≡ text.old.items) }
{
    let mut written = Vec::new(*text.allocator());
    put_refusal(&mut written, refusal)?;
    text.append(&mut written)
}
