//! The line that is printed of a refused input.
ghost use Rattle.std.specs.Prelude.{◌≡◌, ◌++◌, IfOk, OnOk};
ghost use Rattle.app_inputs.specs.Inputs.{bad_entry_text, byte_text, job_line_text, line_text};
ghost use Rattle.app_inputs.specs.Inputs.{refresh_text, refusal_line, refused_entry_text};
ghost use Rattle.app_inputs.specs.Views.{refused_view};

use crate::input_error::{InputFault, RefusedInput};
use crate::script_refusal::{refusal_name, refusal_number};
use app_job_file::RefusedLine;
use app_result_text::put_reason;
use base_refusals::{Cause, LineRefusal, Refusal};
use itoa::Buffer;
use sql_parser::ScriptRefusal;
use std::alloc::{AllocError, Global};

/// The line for a refused input.
pub fn line_of_refusal(alloc: Global, refused: &RefusedInput) -> Result<Vec<u8>, AllocError>
    ensures { IfOk result (λ v. v.items ≡ refusal_line (refused_view refused.now)) }
{
    let mut line = Vec::from_slice(alloc, b"input refused ")?;
    line.extend_from_slice(refused.name.as_bytes())?;
    match refused.fault {
        InputFault::Absent => line.extend_from_slice(b" absent\n")?,
        InputFault::Byte(refusal, place) => push_byte(&mut line, refusal, place)?,
        InputFault::Line(first) => push_line(&mut line, first)?,
        InputFault::RefreshHere(place) => push_refresh(&mut line, place)?,
        InputFault::JobLine(refused) => push_job_line(&mut line, refused)?,
        InputFault::BadEntry(place) => push_bad_entry(&mut line, place)?,
        InputFault::RefusedEntry(number, cause) => push_refused_entry(&mut line, number, cause)?,
        InputFault::JournalTooLong => {
            line.extend_from_slice(b" place 1152921504606846976 3 TooLong\n")?
        }
    }
    Ok(line)
}

/// Appends the place of a script's refusal, its number and its name.
fn push_byte(line: &mut Vec<u8>, refusal: ScriptRefusal, place: usize) -> Result<(), AllocError>
    ensures { OnOk result (line.new.items ≡ line.old.items ++ byte_text refusal place) }
{
    let mut buffer = Buffer::new();
    line.extend_from_slice(b" byte ")?;
    line.extend_from_slice(buffer.format(place).as_bytes())?;
    line.push(b' ')?;
    line.extend_from_slice(buffer.format(refusal_number(refusal)).as_bytes())?;
    line.push(b' ')?;
    line.extend_from_slice(refusal_name(refusal).as_bytes())?;
    line.push(b'\n')?;
    Ok(())
}

/// Appends the place and the fault of a bad line.
fn push_line(line: &mut Vec<u8>, first: LineRefusal) -> Result<(), AllocError>
    ensures { OnOk result (line.new.items ≡ line.old.items ++ line_text first) }
{
    let mut buffer = Buffer::new();
    line.extend_from_slice(b" line ")?;
    line.extend_from_slice(buffer.format(first.line).as_bytes())?;
    line.push(b' ')?;
    line.extend_from_slice(buffer.format(first.fault.number()).as_bytes())?;
    line.push(b' ')?;
    line.extend_from_slice(first.fault.name().as_bytes())?;
    line.push(b'\n')?;
    Ok(())
}

/// Appends the place of a refresh in a script of a job.
fn push_refresh(line: &mut Vec<u8>, place: usize) -> Result<(), AllocError>
    ensures { OnOk result (line.new.items ≡ line.old.items ++ refresh_text place) }
{
    let mut buffer = Buffer::new();
    line.extend_from_slice(b" byte ")?;
    line.extend_from_slice(buffer.format(place).as_bytes())?;
    line.extend_from_slice(b" 9 RefreshHere\n")?;
    Ok(())
}

/// Appends the place and the refusal of a job's line.
fn push_job_line(line: &mut Vec<u8>, refused: RefusedLine) -> Result<(), AllocError>
    ensures { OnOk result (line.new.items ≡ line.old.items ++ job_line_text refused) }
{
    let mut buffer = Buffer::new();
    line.extend_from_slice(b" line ")?;
    line.extend_from_slice(buffer.format(refused.line).as_bytes())?;
    line.push(b' ')?;
    line.extend_from_slice(buffer.format(refused.refusal.number()).as_bytes())?;
    line.push(b' ')?;
    line.extend_from_slice(refused.refusal.name().as_bytes())?;
    line.push(b'\n')?;
    Ok(())
}

/// Appends the place at which a journal is bad.
fn push_bad_entry(line: &mut Vec<u8>, place: u64) -> Result<(), AllocError>
    ensures { OnOk result (line.new.items ≡ line.old.items ++ bad_entry_text place) }
{
    let mut buffer = Buffer::new();
    line.extend_from_slice(b" place ")?;
    line.extend_from_slice(buffer.format(place).as_bytes())?;
    line.extend_from_slice(b" 1 BadEntry\n")?;
    Ok(())
}

/// Appends the number of a journal's entry that is refused, and why.
fn push_refused_entry(line: &mut Vec<u8>, number: usize, cause: Cause) -> Result<(), AllocError>
    ensures { OnOk result (line.new.items ≡ line.old.items ++ refused_entry_text number cause) }
{
    let mut buffer = Buffer::new();
    line.extend_from_slice(b" entry ")?;
    line.extend_from_slice(buffer.format(number).as_bytes())?;
    line.extend_from_slice(b" 2 Refused")?;
    put_reason(line, &Refusal::Refresh(cause))?;
    line.push(b'\n')?;
    Ok(())
}
