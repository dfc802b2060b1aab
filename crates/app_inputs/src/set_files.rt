//! The files of refresh sets, each of which is read once.
ghost use Rattle.std.specs.Prelude.{◌≡◌, ◌<◌, IfOk, IfSome, OnOk, length, slice_index_or, true};
ghost use Rattle.std.specs.String.{string_bytes};
ghost use Rattle.base_schema.specs.LineForm.{refresh_form};
ghost use Rattle.app_inputs.specs.DataFile.{IsFileOf};
ghost use Rattle.app_inputs.specs.FilesAfter.{FilesAfterInput, FilesAfterRead};
ghost use Rattle.app_inputs.specs.Inputs.{set_file, set_rows_in};
ghost use Rattle.app_inputs.specs.SetFile.{FitsFile, IsOfFile};
ghost use Rattle.app_inputs.specs.KnownFiles.{AreKnown, IsAt};
ghost use Rattle.app_inputs.specs.Views.{Reads};

use crate::data_file::{DataReader, read_data_file};
use crate::input_error::{InputError, InputFault, ReadError, refusal_of};
use base_columns::Rows;
use base_io::{Files, Open};
use base_refusals::{LineRefusal, RefreshFile};
use itoa::Buffer;
use std::alloc::{AllocError, Global};
use store_file_reader::RefreshReader;

/// A file of a refresh set that was read.
#[derive(Drop)]
pub struct SetFile {
    file: RefreshFile,
    set: u32,
    rows: Result<Rows, LineRefusal>,
}

/// The name of a refresh file in a folder.
fn file_name(alloc: Global, folder: &str, file: RefreshFile, set: u32) -> Result<String, AllocError>
    ensures { IfOk result (λ name. string_bytes name ≡ set_file folder.now file set) }
{
    let mut buffer = Buffer::new();
    let mut name = String::from_str(alloc, folder)?;
    name.push_str("/")?;
    name.push_str(file.prefix())?;
    name.push_str(buffer.format(set))?;
    Ok(name)
}

/// The rows of the open file, which is such a refresh file, or its first bad line.
fn read_refresh_rows<F: Files>(
    alloc: Global,
    files: &mut F,
    file: RefreshFile,
) -> Result<Result<Rows, LineRefusal>, ReadError>
    requires { F.is_open files.old ≡ true }
    ensures rows { IfOk result (IsFileOf (refresh_form file) (F.left files.old)) }
    ensures fits { IfOk result (FitsFile file) }
    ensures given { IfOk result (IsOfFile file) }
    ensures files { FilesAfterRead F.held F.faults F.misses result files.old files.new }
{
    let reader = RefreshReader::new(alloc, file)?;
    let rows = read_data_file(files, DataReader::Refresh(reader))?;
    Ok(rows)
}

/// What a refresh file of the folder holds: its rows, or its first bad line.
fn read_set_file<F: Files>(
    alloc: Global,
    files: &mut F,
    folder: &str,
    file: RefreshFile,
    set: u32,
) -> Result<Result<Rows, LineRefusal>, InputError>
    ensures input { Reads (λ rows. rows) (F.held files.old)
        (set_rows_in folder.now file set) result }
    ensures fits { IfOk result (FitsFile file) }
    ensures given { IfOk result (IsOfFile file) }
    ensures files { FilesAfterInput F.held F.faults F.misses result files.old files.new }
{
    let name = file_name(alloc, folder, file, set)?;
    match files.open(&name) {
        Open::Failed => Err(InputError::Unread(ReadError::Fault)),
        Open::Absent => Err(refusal_of(alloc, &name, InputFault::Absent)),
        Open::Opened => {
            let rows = read_refresh_rows(alloc, files, file)?;
            Ok(rows)
        }
    }
}

/// Shares the rows of a file, or copies its bad line.
fn share(read: &Result<Rows, LineRefusal>) -> Result<Result<Rows, LineRefusal>, AllocError>
    ensures { IfOk result (λ copy. copy ≡ read.now) }
{
    match read {
        Ok(rows) => Ok(Ok(rows.clone()?)),
        Err(first) => Ok(Err(*first)),
    }
}

/// The place of a file of a set among those that were read.
fn place_of(known: &[SetFile], file: RefreshFile, set: u32) -> Option<usize>
    ensures { IfSome result (λ place. IsAt known.now place file set) }
{
    for (place, other) in known.iter().enumerate() {
        if other.file == file && other.set == set {
            return Some(place);
        }
    }
    None
}

/// What a refresh file of the folder holds. One that was read is not read again.
pub(crate) fn set_rows<F: Files>(
    alloc: Global,
    files: &mut F,
    folder: &str,
    known: &mut Vec<SetFile>,
    file: RefreshFile,
    set: u32,
) -> Result<Result<Rows, LineRefusal>, InputError>
    requires known { AreKnown folder.now (F.held files.old) known.old.items }
    ensures known { OnOk result (AreKnown folder.now (F.held files.old) known.new.items) }
    ensures input { Reads (λ rows. rows) (F.held files.old)
        (set_rows_in folder.now file set) result }
    ensures fits { IfOk result (FitsFile file) }
    ensures given { IfOk result (IsOfFile file) }
    ensures files { FilesAfterInput F.held F.faults F.misses result files.old files.new }
{
    if let Some(place) = place_of(known, file, set) {
        let rows = share(&known[place].rows)?;
        return Ok(rows);
    }
    let rows = read_set_file(alloc, files, folder, file, set)?;
    let kept = share(&rows)?;
    known.push(SetFile {
        file,
        set,
        rows: kept,
    })?;
    Ok(rows)
}
