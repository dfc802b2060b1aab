//! Reading the bytes of a file.
ghost use Rattle.std.specs.Prelude.{◌≡◌, ℕ, ◌<◌, ◌≤◌, ◌^◌, List, ◌++◌, IfOk, MatchOption, length};
ghost use Rattle.std.specs.Prelude.{true, false};
ghost use Rattle.std.specs.Io.KnownBytes.{Consumes, IsAtEnd};
ghost use Rattle.std.specs.Vec.{vec_items};
ghost use Rattle.base_io.specs.Outside.{IsAll, IsLonger};
ghost use Rattle.app_inputs.specs.FilesAfter.{FilesAfterInput, FilesAfterRead};
ghost use Rattle.app_inputs.specs.Front.{IsFrontOf};
ghost use Rattle.app_inputs.specs.Inputs.{file_bytes};
ghost use Rattle.app_inputs.specs.Views.{Reads};

use crate::input_error::{InputError, InputFault, ReadError, refusal_of};
use base_io::{Files, Got, Open};
use sql_parser::ScriptRefusal;
use std::alloc::Global;

/// The most bytes that one call reads.
pub(crate) const PIECE: usize = 65_536;

/// Reads one piece more of the open file, and answers whether it is at its end.
fn read_piece<F: Files>(files: &mut F, bytes: &mut Vec<u8>) -> Result<bool, ReadError>
    requires { F.is_open files.old ≡ true }
    ensures bytes { IfOk result (λ end. (added : List ℕ)
        × (bytes.new.items ≡ bytes.old.items ++ added)
        × Consumes (F.left files.old) (F.left files.new) added
        × (end ≡ true → IsAtEnd (F.left files.new)) × (end ≡ false → 0 < length added)) }
    ensures is_open { F.is_open files.new ≡ true }
    ensures files { FilesAfterRead F.held F.faults F.misses result files.old files.new }
{
    let mut piece = [0u8; PIECE];
    match files.next(&mut piece) {
        Got::Failed => Err(ReadError::Fault),
        Got::Got(count) => {
            bytes.extend_from_slice(&piece[..count])?;
            Ok(count == 0)
        }
    }
}

/// The bytes of the open file: all of them, or more than the limit from its front.
fn front<F: Files>(alloc: Global, files: &mut F, limit: usize) -> Result<Vec<u8>, ReadError>
    requires open { F.is_open files.old ≡ true }
    requires limit { limit < 2 ^ 63 }
    ensures bytes { IfOk result (λ v. IsFrontOf limit (F.left files.old) v.items) }
    ensures files { FilesAfterRead F.held F.faults F.misses result files.old files.new }
{
    let mut bytes = Vec::new(alloc);
    while bytes.len() <= limit {
        if read_piece(files, &mut bytes)? {
            return Ok(bytes);
        }
    }
    Ok(bytes)
}

/// All bytes of the open file, or `None` where they are more than the limit.
pub(crate) fn collect<F: Files>(
    alloc: Global,
    files: &mut F,
    limit: usize,
) -> Result<Option<Vec<u8>>, ReadError>
    requires open { F.is_open files.old ≡ true }
    requires limit { limit < 2 ^ 63 }
    ensures bytes { IfOk result (λ found. MatchOption found (IsLonger (F.left files.old) limit)
        (λ v. IsAll (F.left files.old) v.items × (length v.items ≤ limit))) }
    ensures files { FilesAfterRead F.held F.faults F.misses result files.old files.new }
{
    let bytes = front(alloc, files, limit)?;
    if bytes.len() > limit {
        return Ok(None);
    }
    Ok(Some(bytes))
}

/// All bytes of the file of that name, refused where it is absent or has more bytes than the limit.
pub fn read_file<F: Files>(
    alloc: Global,
    files: &mut F,
    name: &str,
    limit: usize,
) -> Result<Vec<u8>, InputError>
    requires { limit < 2 ^ 63 }
    ensures input { Reads vec_items (F.held files.old)
        (λ folder. file_bytes limit folder name.now) result }
    ensures files { FilesAfterInput F.held F.faults F.misses result files.old files.new }
{
    match files.open(name) {
        Open::Failed => Err(InputError::Unread(ReadError::Fault)),
        Open::Absent => Err(refusal_of(alloc, name, InputFault::Absent)),
        Open::Opened => match collect(alloc, files, limit)? {
            Some(bytes) => Ok(bytes),
            None => Err(refusal_of(alloc, name, InputFault::Byte(ScriptRefusal::TooLong, limit))),
        },
    }
}
