//! What is told of the refreshes of a job.
ghost use Rattle.std.specs.Prelude.{◌≡◌, ◌+◌, ◌<◌, ◌++◌, ◌^◌, ◌&&◌, OnOk, is_ok};
ghost use Rattle.app_sessions.specs.Reports.{refresh_line, result_written, sender_written};

use app_result_text::push_refusal;
use base_refusals::{Cause, Refusal};
use itoa::Buffer;
use std::alloc::{AllocError, Global};

/// What is told of refreshes that were tried one after another.
#[derive(Drop)]
pub struct Report {
    /// How many they are.
    pub count: usize,
    /// A line for each.
    pub text: Vec<u8>,
    /// Whether each of them was accepted.
    pub accepted: bool,
}

impl Report {
    ghost use Rattle.std.specs.Prelude.{[], true};

    /// Nothing is told yet.
    pub fn new(alloc: Global) -> Report
        ensures count { result.count ≡ 0 }
        ensures text { result.text.items ≡ [] }
        ensures accepted { result.accepted ≡ true }
    {
        Report {
            count: 0,
            text: Vec::new(alloc),
            accepted: true,
        }
    }
}

/// Appends the version that a refresh made, or its refusal.
fn push_result(text: &mut Vec<u8>, tried: Result<u64, Cause>) -> Result<(), AllocError>
    ensures { OnOk result (text.new.items ≡ text.old.items ++ result_written tried) }
{
    match tried {
        Ok(version) => {
            let mut buffer = Buffer::new();
            text.extend_from_slice(b"version ")?;
            text.extend_from_slice(buffer.format(version).as_bytes())
        }
        Err(cause) => push_refusal(text, &Refusal::Refresh(cause)),
    }
}

/// Appends the sender that a refresh comes from, if it has one.
fn push_sender(text: &mut Vec<u8>, sender: Option<u64>) -> Result<(), AllocError>
    ensures { OnOk result (text.new.items ≡ text.old.items ++ sender_written sender) }
{
    let Some(sender) = sender else {
        return Ok(());
    };
    let mut buffer = Buffer::new();
    text.extend_from_slice(b"from ")?;
    text.extend_from_slice(buffer.format(sender).as_bytes())?;
    text.push(b' ')?;
    Ok(())
}

/// Appends the line of a refresh of this number.
fn push_refresh(
    text: &mut Vec<u8>,
    number: usize,
    sender: Option<u64>,
    tried: Result<u64, Cause>,
) -> Result<(), AllocError>
    ensures { OnOk result (text.new.items ≡ text.old.items ++ refresh_line number sender tried) }
{
    let mut buffer = Buffer::new();
    text.extend_from_slice(b"refresh ")?;
    text.extend_from_slice(buffer.format(number).as_bytes())?;
    text.push(b' ')?;
    push_sender(text, sender)?;
    push_result(text, tried)?;
    text.push(b'\n')?;
    Ok(())
}

/// Tells of one refresh more.
pub fn tell_of(
    sender: Option<u64>,
    tried: Result<u64, Cause>,
    report: &mut Report,
) -> Result<(), AllocError>
    requires { report.old.count + 1 < 2 ^ 64 }
    ensures count { report.new.count ≡ report.old.count + 1 }
    ensures text { OnOk result (report.new.text.items
        ≡ report.old.text.items ++ refresh_line (report.old.count + 1) sender tried) }
    ensures accepted { OnOk result (report.new.accepted
        ≡ (report.old.accepted && is_ok tried)) }
{
    report.count += 1;
    push_refresh(&mut report.text, report.count, sender, tried)?;
    report.accepted = report.accepted && tried.is_ok();
    Ok(())
}
