//! Reading a script.
ghost use Rattle.app_inputs.specs.FilesAfter.{FilesAfterInput};
ghost use Rattle.app_inputs.specs.Inputs.{IsScriptOf, file_bytes, script_limit};
ghost use Rattle.app_inputs.specs.Views.{Finds};

use crate::input::read_file;
use crate::input_error::{InputError, InputFault, ReadError, refusal_of};
use base_io::Files;
use sql_ast::Statement;
use sql_parser::{MAX_SCRIPT, ScriptFault, read_script};
use sqlite_items::Items;
use std::alloc::Global;

/// The statements of the script of that name.
pub fn read_statements<F: Files>(
    alloc: Global,
    files: &mut F,
    name: &str,
) -> Result<Items<Statement>, InputError>
    ensures input { Finds (λ statements. statements) (F.held files.old)
        (λ folder. IsScriptOf name.now (file_bytes script_limit folder name.now)) result }
    ensures files { FilesAfterInput F.held F.faults F.misses result files.old files.new }
{
    let bytes = read_file(alloc, files, name, MAX_SCRIPT)?;
    match read_script(alloc, &bytes) {
        Ok(statements) => Ok(statements),
        Err(ScriptFault::Refused(refusal, place)) => {
            Err(refusal_of(alloc, name, InputFault::Byte(refusal, place)))
        }
        Err(ScriptFault::OutOfMemory) => Err(InputError::Unread(ReadError::OutOfMemory)),
    }
}
