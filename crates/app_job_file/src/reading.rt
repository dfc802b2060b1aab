//! Reading a job's file.
ghost use Rattle.std.specs.Prelude.{◌≡◌, ◌+◌, ◌<◌, ◌≤◌, ◌^◌, ◌∷◌, ◌==◌, IfOk, OnOk, drop, length};
ghost use Rattle.std.specs.Prelude.{take};
ghost use Rattle.std.specs.List.{list_any, position};
ghost use Rattle.std.specs.Str.{bytes_eq};
ghost use Rattle.store_file_reader.specs.File.{cut_lines};
ghost use Rattle.store_file_reader.specs.Line.{line_text, without_end};
ghost use Rattle.app_job_file.specs.Files.{IsReadable, IsWithin, Puts, Says, has_sent, has_unsent};
ghost use Rattle.app_job_file.specs.Files.{has_most_keeps, is_full, is_taken, job_of, no_parts, parts_of};
ghost use Rattle.app_job_file.specs.Files.{with_before, with_keep};
ghost use Rattle.app_job_file.specs.Files.{with_beside, with_journal, with_lines, with_script};
ghost use Rattle.app_job_file.specs.Files.{with_sent, with_text};

use crate::job::{Job, Keep, Mention};
use crate::line::{Line, line_of};
use crate::refusal::{JobRefusal, RefusedLine};
use base_schema::TableName;
use sql_lexer::name_of;
use std::alloc::{AllocError, AllocFailed, Global};
use store_gateway::SenderId;

/// The most bytes of a job's file.
pub const MAX_JOB: usize = 1_048_576;

/// The most sessions of a job.
const MOST_SESSIONS: usize = 64;

/// The most refreshes of a job.
const MOST_REFRESHES: usize = 1024;

/// The most kept views of a job.
const MOST_KEEPS: usize = 16;

/// Why a job is not read.
#[derive(Clone, Copy, Debug, PartialEq, Eq)]
pub enum JobFileError {
    /// It is refused.
    Refused(RefusedLine),
    /// Memory ran out.
    OutOfMemory,
}

impl From<AllocError> for JobFileError {
    ghost use Rattle.app_job_file.specs.declared.reading.JobFileError.TheVariants.{OutOfMemory};

    ghost from_gives = { λ _ e. e ≡ OutOfMemory };

    fn from(_: AllocError) -> Self {
        JobFileError::OutOfMemory
    }
}

impl<T: Drop> From<AllocFailed<T>> for JobFileError {
    ghost use Rattle.app_job_file.specs.declared.reading.JobFileError.TheVariants.{OutOfMemory};

    ghost from_gives = { λ _ e. e ≡ OutOfMemory };

    fn from(_: AllocFailed<T>) -> Self {
        JobFileError::OutOfMemory
    }
}

/// The refusal of a line of that number.
fn refusal_at(refusal: JobRefusal, line: usize) -> JobFileError
    ensures { result ≡ JobFileError.Refused (record { refusal = refusal; line = line }) }
{
    JobFileError::Refused(RefusedLine { refusal, line })
}

/// Adds a session, unless it is one too many.
fn put_script(alloc: Global, job: &mut Job, number: usize, name: &str) -> Result<(), JobFileError>
    requires { IsWithin job.old }
    ensures script { Puts number (with_script (parts_of job.old) name.now)
        (parts_of job.new) result }
    ensures within { OnOk result (IsWithin job.new) }
{
    if job.scripts.len() >= MOST_SESSIONS {
        return Err(refusal_at(JobRefusal::TooMany, number));
    }
    let name = String::from_str(alloc, name)?;
    job.scripts.push(name)?;
    Ok(())
}

/// Adds a journal, unless there is one.
fn put_journal(alloc: Global, job: &mut Job, number: usize, name: &str) -> Result<(), JobFileError>
    requires { IsWithin job.old }
    ensures journal { Puts number (with_journal (parts_of job.old) name.now)
        (parts_of job.new) result }
    ensures within { OnOk result (IsWithin job.new) }
{
    if job.journal.is_some() {
        return Err(refusal_at(JobRefusal::BadLine, number));
    }
    job.journal = Some(String::from_str(alloc, name)?);
    Ok(())
}

/// Whether one of these kept views has this name.
fn has_name(keeps: &[Keep], name: &[u8]) -> bool
    ensures { result ≡ list_any (λ keep. bytes_eq keep.name name.now) keeps.now }
{
    keeps.iter().any(|keep| keep.name.bytes() == name)
}

/// Whether a kept view can't have this name: a table has it, or one before it.
#[tactic(auto, using(crate::proofs::KeepNames::taken))]
fn is_taken(job: &Job, name: &[u8]) -> bool
    ensures { result ≡ is_taken (parts_of job.now) name.now }
{
    TableName::from_name(name).is_some() || has_name(job.keeps.as_slice(), name)
}

/// Whether another kept view would be one too many.
fn has_most_keeps(job: &Job) -> bool
    ensures { result ≡ has_most_keeps (parts_of job.now) }
{
    job.keeps.len() >= MOST_KEEPS
}

/// Adds a kept view, unless its name is none, it is one too many, or its name is taken.
fn put_keep(
    alloc: Global,
    job: &mut Job,
    number: usize,
    name: &str,
    file: &str,
) -> Result<(), JobFileError>
    requires { IsWithin job.old }
    ensures keep { Puts number (with_keep (parts_of job.old) number name.now file.now)
        (parts_of job.new) result }
    ensures within { OnOk result (IsWithin job.new) }
{
    let Some(name) = name_of(alloc, name.as_bytes())? else {
        return Err(refusal_at(JobRefusal::BadLine, number));
    };
    if has_most_keeps(job) {
        return Err(refusal_at(JobRefusal::TooMany, number));
    }
    if is_taken(job, name.bytes()) {
        return Err(refusal_at(JobRefusal::KeepTwice, number));
    }
    let file = String::from_str(alloc, file)?;
    let line = number;
    job.keeps.push(Keep { name, file, line })?;
    Ok(())
}

/// Whether another refresh would be one too many.
fn is_full(job: &Job) -> bool
    ensures { result ≡ is_full (parts_of job.now) }
{
    job.refreshes.len() >= MOST_REFRESHES
}

/// Whether a refresh beside the sessions is sent.
fn has_sent(job: &Job) -> bool
    ensures { result ≡ has_sent (parts_of job.now) }
{
    !job.senders.is_empty()
}

/// Whether a refresh beside the sessions is sent by nobody.
fn has_unsent(job: &Job) -> bool
    requires { IsWithin job.now }
    ensures { result ≡ has_unsent (parts_of job.now) }
{
    job.before + job.senders.len() < job.refreshes.len()
}

/// Adds a refresh that is tried before the sessions, unless one beside them came before it or it is
/// one too many.
fn put_before(job: &mut Job, number: usize, mention: Mention) -> Result<(), JobFileError>
    requires { IsWithin job.old }
    ensures line { Puts number (with_before (parts_of job.old) mention) (parts_of job.new) result }
    ensures within { OnOk result (IsWithin job.new) }
{
    if job.before < job.refreshes.len() {
        return Err(refusal_at(JobRefusal::LateBefore, number));
    }
    if is_full(job) {
        return Err(refusal_at(JobRefusal::TooMany, number));
    }
    job.refreshes.push(mention)?;
    job.before += 1;
    Ok(())
}

/// Adds a refresh beside the sessions that nobody sends, unless it is one too many or one that is
/// sent came before it.
fn put_beside(job: &mut Job, number: usize, mention: Mention) -> Result<(), JobFileError>
    requires { IsWithin job.old }
    ensures line { Puts number (with_beside (parts_of job.old) mention) (parts_of job.new) result }
    ensures within { OnOk result (IsWithin job.new) }
{
    if is_full(job) {
        return Err(refusal_at(JobRefusal::TooMany, number));
    }
    if has_sent(job) {
        return Err(refusal_at(JobRefusal::MixedSenders, number));
    }
    job.refreshes.push(mention)?;
    Ok(())
}

/// Adds a refresh beside the sessions that is sent, unless it is one too many or one that nobody
/// sends came before it.
fn put_sent(
    job: &mut Job,
    number: usize,
    sender: SenderId,
    mention: Mention,
) -> Result<(), JobFileError>
    requires { IsWithin job.old }
    ensures line { Puts number (with_sent (parts_of job.old) sender mention) (parts_of job.new)
        result }
    ensures within { OnOk result (IsWithin job.new) }
{
    if is_full(job) {
        return Err(refusal_at(JobRefusal::TooMany, number));
    }
    if has_unsent(job) {
        return Err(refusal_at(JobRefusal::MixedSenders, number));
    }
    job.senders.push(sender)?;
    job.refreshes.push(mention)?;
    Ok(())
}

/// Adds what the text of a line asks for. An empty one is skipped.
fn put_text(alloc: Global, job: &mut Job, number: usize, text: &[u8]) -> Result<(), JobFileError>
    requires { IsWithin job.old }
    ensures text { Puts number (with_text (parts_of job.old) number text.now) (parts_of job.new)
        result }
    ensures within { OnOk result (IsWithin job.new) }
{
    if text.is_empty() {
        return Ok(());
    }
    match line_of(text) {
        Some(Line::Session(name)) => put_script(alloc, job, number, name),
        Some(Line::Journal(name)) => put_journal(alloc, job, number, name),
        Some(Line::Keep(name, file)) => put_keep(alloc, job, number, name, file),
        Some(Line::Before(mention)) => put_before(job, number, mention),
        Some(Line::Beside(mention)) => put_beside(job, number, mention),
        Some(Line::Send(sender, mention)) => put_sent(job, number, sender, mention),
        None => Err(refusal_at(JobRefusal::BadLine, number)),
    }
}

/// The bytes without that one at their end, if it stands there.
fn without_end(text: &[u8], byte: u8) -> &[u8]
    ensures { result.now ≡ without_end byte text.now }
{
    if text.ends_with(&[byte]) {
        &text[..text.len() - 1]
    } else {
        text
    }
}

/// The text of a line, without the LF at its end and one CR directly before that.
fn line_text(line: &[u8]) -> &[u8]
    ensures { result.now ≡ line_text line.now }
{
    without_end(without_end(line, b'\n'), b'\r')
}

/// The place of the first LF.
fn end_of_line(text: &[u8]) -> Option<usize>
    ensures { result ≡ position (λ byte. byte == 10) text.now }
{
    text.iter().position(|byte| *byte == b'\n')
}

/// How many bytes the first line has, with its LF.
fn line_len(text: &[u8]) -> usize
    requires { 0 < length text.now }
    ensures some { 0 < result }
    ensures within { result ≤ length text.now }
    ensures cut { cut_lines text.now ≡ take result text.now ∷ cut_lines (drop result text.now) }
{
    match end_of_line(text) {
        Some(end) => end + 1,
        None => text.len(),
    }
}

/// What the lines of a job's file ask for.
fn read_lines(alloc: Global, bytes: &[u8]) -> Result<Job, JobFileError>
    requires { length bytes.now < 2 ^ 63 }
    ensures job { Says (with_lines 1 no_parts (cut_lines bytes.now)) result }
    ensures within { IfOk result IsWithin }
{
    let mut job = Job::new(alloc);
    let mut number = 1;
    let mut rest = bytes;
    'reading: while !rest.is_empty() {
        let end = line_len(rest);
        put_text(alloc, &mut job, number, line_text(&rest[..end]))?;
        number += 1;
        rest = &rest[end..];
    }
    Ok(job)
}

/// What a job's file asks for: its lines `session NAME`, at most one line `journal NAME`,
/// lines `keep NAME FILE`, and `before insert N`, `beside insert N`, `send1 insert N` and
/// `send2 insert N`, or `delete N` in place of `insert N`, N having one to nine digits. Empty lines
/// are skipped.
///
/// # Errors
///
/// A file that is too long; else its first bad line, in it the refusal of the least number; else a
/// file without a session. Nothing says when memory runs out.
pub fn read_job(alloc: Global, bytes: &[u8]) -> Result<Job, JobFileError>
    ensures job { Says (job_of bytes.now) result }
    ensures readable { IfOk result IsReadable }
{
    if bytes.len() > MAX_JOB {
        return Err(refusal_at(JobRefusal::TooLong, 0));
    }
    let job = read_lines(alloc, bytes)?;
    if job.scripts.is_empty() {
        return Err(refusal_at(JobRefusal::NoSession, 0));
    }
    Ok(job)
}
