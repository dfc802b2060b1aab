//! Reading the file of a job.
ghost use Rattle.std.specs.Prelude.{◌≡◌, Some, IfErr, IfOk, true};
ghost use Rattle.app_job_file.specs.Files.{IsReadable, parts_of};
ghost use Rattle.base_io.specs.Outside.{file_of};
ghost use Rattle.app_inputs.specs.FilesAfter.{FilesAfterInput, FilesAfterRead};
ghost use Rattle.app_inputs.specs.JobFile.{IsJobOf, job_in};
ghost use Rattle.app_inputs.specs.Views.{Reads};

use crate::input::collect;
use crate::input_error::{InputError, InputFault, ReadError, refusal_of};
use app_job_file::{Job, JobFileError, JobRefusal, MAX_JOB, RefusedLine, read_job};
use base_io::{Files, Open};
use std::alloc::Global;

/// The job that bytes say, or the line for which it is refused.
fn job_of_bytes(alloc: Global, bytes: &[u8]) -> Result<Result<Job, RefusedLine>, ReadError>
    ensures job { IfOk result (IsJobOf (Some bytes.now)) }
    ensures readable { IfOk result (λ read. IfOk read IsReadable) }
    ensures memory { IfErr result (λ e. e ≡ ReadError.OutOfMemory) }
{
    match read_job(alloc, bytes) {
        Ok(job) => Ok(Ok(job)),
        Err(JobFileError::Refused(line)) => Ok(Err(line)),
        Err(JobFileError::OutOfMemory) => Err(ReadError::OutOfMemory),
    }
}

/// The job of the open file, or the line for which it is refused.
fn job_of_open<F: Files>(
    alloc: Global,
    files: &mut F,
) -> Result<Result<Job, RefusedLine>, ReadError>
    requires { F.is_open files.old ≡ true }
    ensures job { IfOk result (IsJobOf (F.left files.old)) }
    ensures readable { IfOk result (λ read. IfOk read IsReadable) }
    ensures files { FilesAfterRead F.held F.faults F.misses result files.old files.new }
{
    match collect(alloc, files, MAX_JOB)? {
        Some(bytes) => {
            let read = job_of_bytes(alloc, &bytes)?;
            Ok(read)
        }
        None => Ok(Err(RefusedLine {
            refusal: JobRefusal::TooLong,
            line: 0,
        })),
    }
}

/// The job of the file of that name.
pub fn read_job_file<F: Files>(alloc: Global, files: &mut F, name: &str) -> Result<Job, InputError>
    ensures input { Reads parts_of (F.held files.old)
        (λ folder. job_in name.now (file_of folder name.now)) result }
    ensures readable { IfOk result IsReadable }
    ensures files { FilesAfterInput F.held F.faults F.misses result files.old files.new }
{
    match files.open(name) {
        Open::Failed => Err(InputError::Unread(ReadError::Fault)),
        Open::Absent => Err(refusal_of(alloc, name, InputFault::Absent)),
        Open::Opened => match job_of_open(alloc, files)? {
            Ok(job) => Ok(job),
            Err(line) => Err(refusal_of(alloc, name, InputFault::JobLine(line))),
        },
    }
}
