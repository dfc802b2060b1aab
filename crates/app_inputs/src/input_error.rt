//! Why an input is refused, or can't be read.
ghost use Rattle.std.specs.Prelude.{◌≡◌};
ghost use Rattle.app_inputs.specs.Views.{Refuses};

use app_job_file::RefusedLine;
use base_refusals::{Cause, LineRefusal};
use sql_parser::ScriptRefusal;
use std::alloc::{AllocError, AllocFailed, Global};

/// What is wrong with an input.
#[derive(Clone, Copy, Debug, PartialEq, Eq)]
pub enum InputFault {
    /// There is no file of that name.
    Absent,
    /// The script has this first refusal at this byte, counted from 0.
    Byte(ScriptRefusal, usize),
    /// This is the first bad line of a table's file.
    Line(LineRefusal),
    /// The script of a job's session has its first refresh at this byte, counted from 0.
    RefreshHere(usize),
    /// The job is refused so.
    JobLine(RefusedLine),
    /// A journal's file is bad at this byte, counted from 0: it ends there without a closed gate, or
    /// no entry stands there.
    BadEntry(u64),
    /// The journal's entry of this number, counted from 1, is refused, for this first cause.
    RefusedEntry(usize, Cause),
    /// A journal's file is longer than 2^60 bytes.
    JournalTooLong,
}

/// An input that is refused.
#[derive(Drop)]
pub struct RefusedInput {
    /// The name by which it was opened.
    pub name: String,
    /// What is wrong with it.
    pub fault: InputFault,
}

/// Why a file could not be read.
#[derive(Clone, Copy, Debug, PartialEq, Eq)]
pub enum ReadError {
    /// Opening or reading it failed.
    Fault,
    /// Memory ran out.
    OutOfMemory,
}

/// Why there is no input.
#[derive(Drop)]
pub enum InputError {
    /// It could not be read.
    Unread(ReadError),
    /// It is absent or not of its form.
    Refused(RefusedInput),
}

impl From<AllocError> for ReadError {
    ghost use Rattle.app_inputs.specs.declared.input_error.ReadError.TheVariants.{OutOfMemory};

    ghost from_gives = { λ _ e. e ≡ OutOfMemory };

    fn from(_: AllocError) -> Self {
        ReadError::OutOfMemory
    }
}

impl From<ReadError> for InputError {
    ghost use Rattle.app_inputs.specs.declared.input_error.InputError.TheVariants.{Unread};

    ghost from_gives = { λ error e. e ≡ Unread error };

    fn from(error: ReadError) -> Self {
        InputError::Unread(error)
    }
}

impl From<AllocError> for InputError {
    ghost use Rattle.app_inputs.specs.declared.input_error.InputError.TheVariants.{Unread};
    ghost use Rattle.app_inputs.specs.declared.input_error.ReadError.TheVariants.{OutOfMemory};

    ghost from_gives = { λ _ e. e ≡ Unread OutOfMemory };

    fn from(_: AllocError) -> Self {
        InputError::Unread(ReadError::OutOfMemory)
    }
}

impl<T: Drop> From<AllocFailed<T>> for InputError {
    ghost use Rattle.app_inputs.specs.declared.input_error.InputError.TheVariants.{Unread};
    ghost use Rattle.app_inputs.specs.declared.input_error.ReadError.TheVariants.{OutOfMemory};

    ghost from_gives = { λ _ e. e ≡ Unread OutOfMemory };

    fn from(_: AllocFailed<T>) -> Self {
        InputError::Unread(ReadError::OutOfMemory)
    }
}

/// The refusal of the input of that name, or that memory ran out for it.
pub fn refusal_of(alloc: Global, name: &str, fault: InputFault) -> InputError
    ensures { Refuses name.now fault result }
{
    match String::from_str(alloc, name) {
        Ok(name) => InputError::Refused(RefusedInput { name, fault }),
        Err(_) => InputError::Unread(ReadError::OutOfMemory),
    }
}
