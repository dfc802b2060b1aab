//! A run from its words to its text. A job may wait for its readers and its threads.
ghost use Rattle.std.specs.Prelude.{◌≡◌, ◌≢◌, ◌≤◌, ◌⊎◌, ℕ, List, Some, IfOk, map};
ghost use Rattle.std.specs.Io.KnownBytes.{Keeps};
ghost use Rattle.std.specs.String.{string_bytes};
ghost use Rattle.base_io.specs.Outside.{Rose};
ghost use Rattle.app_inputs.specs.FilesAfter.{FilesAfterInput, FilesAfterRead};
ghost use Rattle.app_run.specs.JobMeaning.{DiskTold, disk_told};
ghost use Rattle.app_run.specs.Meaning.{IsAbsentInput, IsAccepted, LeavesDisk, TakesPart};
ghost use Rattle.app_run.specs.Meaning.{TakesWhole};
ghost use Rattle.app_run.specs.Views.{IsDiskFault, IsOutputOf, IsSameOutput, IsTextOf, MayGive};
ghost use Rattle.app_inputs.specs.Views.{command_view};
ghost use Rattle.app_inputs.specs.Words.{IsInRange, IsOverFiles, command_of};
ghost use Rattle.app_inputs.specs.Words.Command.{check};

use crate::check::check_text;
use crate::explain::explain_text;
use crate::output::Output;
use crate::session::session_text;
use crate::throughput::throughput_output;
use crate::trial::trial_output;
use app_inputs::{Command, InputError, ReadError, Status, line_of_refusal, read_words, write_text};
use base_disk::Disk;
use base_io::{Files, Gate, Sink};
use std::alloc::Global;
use std::sync::Wait;
use std::thread::Threads;

static USAGE: &[u8] =
    b"usage: tpch session DIR SCRIPT, throughput DIR JOB, explain SCRIPT, check DIR, trial N\n";

/// A text and its status, or why there is none.
fn output_of(printed: Result<(Vec<u8>, Status), InputError>) -> Result<Output, InputError>
    ensures { IsSameOutput printed result }
{
    let (text, status) = printed?;
    Ok(Output::Text(text, status))
}

/// The text of the counts of the folder's tables, and its status.
fn check_output<F: Files>(
    alloc: Global,
    files: &mut F,
    folder: &str,
) -> Result<(Vec<u8>, Status), InputError>
    ensures text { (disk : DiskTold) → IsTextOf (check folder.now) (F.held files.old) disk result }
    ensures files { FilesAfterInput F.held F.faults F.misses result files.old files.new }
{
    match check_text(alloc, files, folder) {
        Ok(text) => Ok((text, Status::Done)),
        Err(error) => Err(error),
    }
}

/// What a command gives over its files.
fn command_text<R: Threads + Wait + Sync, F: Files, D: Disk + Send, G: Gate + Sync>(
    rt: &R,
    alloc: Global,
    files: &mut F,
    disk: &mut D,
    gate: &G,
    command: &Command<'_>,
) -> Result<Output, InputError>
    requires { IsOverFiles (command_view command.now) }
    ensures output { IsOutputOf (command_view command.now) (F.held files.old)
        (disk_told (D.named disk.old) (D.reads disk.new)) result }
    ensures failed { IfOk result (λ output. IsDiskFault output
        → Rose (D.faults disk.old) (D.faults disk.new)) }
    ensures later { D.faults disk.old ≤ D.faults disk.new }
    ensures untouched { LeavesDisk (Some (command_view command.now)) (F.held files.old)
        → disk.new ≡ disk.old }
    ensures files { FilesAfterInput F.held F.faults F.misses result files.old files.new }
{
    match command {
        Command::Session { folder, script } => {
            output_of(session_text(rt, alloc, files, folder, script))
        }
        Command::Throughput { folder, job } => {
            throughput_output(rt, alloc, files, disk, folder, job, gate)
        }
        Command::Explain { script } => output_of(explain_text(alloc, files, script)),
        Command::Check { folder } => output_of(check_output(alloc, files, folder)),
        Command::Trial { .. } => unreachable!(),
    }
}

/// What a command over files prints, and its status: its text, or the line of its first refused
/// input.
fn output_over_files<R: Threads + Wait + Sync, F: Files, D: Disk + Send, G: Gate + Sync>(
    rt: &R,
    alloc: Global,
    files: &mut F,
    disk: &mut D,
    gate: &G,
    command: &Command<'_>,
) -> Result<Output, ReadError>
    requires { IsOverFiles (command_view command.now) }
    ensures gives { IfOk result (MayGive (command_view command.now) (F.held files.old)
        (disk_told (D.named disk.old) (D.reads disk.new))) }
    ensures failed { IfOk result (λ output. IsDiskFault output
        → Rose (D.faults disk.old) (D.faults disk.new)) }
    ensures later { D.faults disk.old ≤ D.faults disk.new }
    ensures untouched { LeavesDisk (Some (command_view command.now)) (F.held files.old)
        → disk.new ≡ disk.old }
    ensures absent { IfOk result (λ output. (IsDiskFault output → ⊥)
        → IsAbsentInput (Some (command_view command.now)) (F.held files.old) (D.named disk.old)
        → Rose (F.misses files.old) (F.misses files.new)) }
    ensures files { FilesAfterRead F.held F.faults F.misses result files.old files.new }
{
    match command_text(rt, alloc, files, disk, gate, command) {
        Ok(output) => Ok(output),
        Err(InputError::Refused(refused)) => {
            let text = line_of_refusal(alloc, &refused)?;
            Ok(Output::Text(text, Status::InputRefused))
        }
        Err(InputError::Unread(error)) => Err(error),
    }
}

/// What a command prints, and its status.
fn command_output<R: Threads + Wait + Sync, F: Files, D: Disk + Send, G: Gate + Sync>(
    rt: &R,
    alloc: Global,
    files: &mut F,
    disk: &mut D,
    gate: &G,
    command: &Command<'_>,
) -> Result<Output, ReadError>
    requires { IsInRange (command_view command.now) }
    ensures gives { IfOk result (MayGive (command_view command.now) (F.held files.old)
        (disk_told (D.named disk.old) (D.reads disk.new))) }
    ensures failed { IfOk result (λ output. IsDiskFault output
        → Rose (D.faults disk.old) (D.faults disk.new)) }
    ensures later { D.faults disk.old ≤ D.faults disk.new }
    ensures untouched { LeavesDisk (Some (command_view command.now)) (F.held files.old)
        → disk.new ≡ disk.old }
    ensures absent { IfOk result (λ output. (IsDiskFault output → ⊥)
        → IsAbsentInput (Some (command_view command.now)) (F.held files.old) (D.named disk.old)
        → Rose (F.misses files.old) (F.misses files.new)) }
    ensures files { FilesAfterRead F.held F.faults F.misses result files.old files.new }
{
    match command {
        Command::Trial { number } => {
            let (text, status) = trial_output(rt, alloc, *number, gate)?;
            Ok(Output::Text(text, status))
        }
        Command::Session { .. }
        | Command::Throughput { .. }
        | Command::Explain { .. }
        | Command::Check { .. } => output_over_files(rt, alloc, files, disk, gate, command),
    }
}

/// Reads the words and the files that they name, and writes one text. The clauses are those of
/// `tpch`.
pub fn run<R: Threads + Wait + Sync, F: Files, S: Sink, D: Disk + Send, G: Gate + Sync>(
    rt: &R,
    alloc: Global,
    words: &[String],
    files: &mut F,
    out: &mut S,
    disk: &mut D,
    gate: &G,
) -> Status
    ensures answer { TakesWhole (command_of (map string_bytes words.now)) (F.held files.old)
        (disk_told (D.named disk.old) (D.reads disk.new)) (S.taken out.old) (S.taken out.new)
        result }
    ensures read { result ≡ Status.ReadFault → Rose (F.faults files.old) (F.faults files.new)
        × Keeps (S.taken out.old) (S.taken out.new) }
    ensures write { result ≡ Status.WriteFault → Rose (S.faults out.old) (S.faults out.new)
        × TakesPart (command_of (map string_bytes words.now)) (F.held files.old)
        (disk_told (D.named disk.old) (D.reads disk.new)) (S.taken out.old) (S.taken out.new) }
    ensures disk { result ≡ Status.DiskFault → Rose (D.faults disk.old) (D.faults disk.new)
        × Keeps (S.taken out.old) (S.taken out.new) }
    ensures memory { result ≡ Status.OutOfMemory → Keeps (S.taken out.old) (S.taken out.new)
        ⊎ TakesPart (command_of (map string_bytes words.now)) (F.held files.old)
        (disk_told (D.named disk.old) (D.reads disk.new)) (S.taken out.old) (S.taken out.new) }
    ensures absent { result ≡ Status.InputRefused
        → IsAbsentInput (command_of (map string_bytes words.now)) (F.held files.old)
        (D.named disk.old)
        → Rose (F.misses files.old) (F.misses files.new) }
    ensures complete { IsAccepted (command_of (map string_bytes words.now)) (F.held files.old)
        (D.named disk.old)
        → ¬ Rose (F.faults files.old) (F.faults files.new)
        → ¬ Rose (S.faults out.old) (S.faults out.new)
        → ¬ Rose (D.faults disk.old) (D.faults disk.new)
        → result ≢ Status.OutOfMemory → (result ≡ Status.Done) ⊎ (result ≡ Status.SomeRefused) }
    ensures held { F.held files.new ≡ F.held files.old }
    ensures counts { (F.faults files.old ≤ F.faults files.new)
        × (F.misses files.old ≤ F.misses files.new)
        × (S.faults out.old ≤ S.faults out.new)
        × (D.faults disk.old ≤ D.faults disk.new) }
    ensures untouched { LeavesDisk (command_of (map string_bytes words.now)) (F.held files.old)
        → disk.new ≡ disk.old }
{
    let Ok(read) = read_words(alloc, words) else {
        return Status::OutOfMemory;
    };
    let Some(command) = read else {
        return write_text(out, USAGE, Status::Usage);
    };
    match command_output(rt, alloc, files, disk, gate, &command) {
        Ok(Output::Text(text, status)) => write_text(out, text.as_slice(), status),
        Ok(Output::DiskFault) => Status::DiskFault,
        Err(ReadError::Fault) => Status::ReadFault,
        Err(ReadError::OutOfMemory) => Status::OutOfMemory,
    }
}
