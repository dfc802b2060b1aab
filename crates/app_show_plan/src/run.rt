//! A run: its words, its files, and its text.
ghost use Rattle.std.specs.Prelude.{◌≡◌, ◌≢◌, ℕ, List, Some, IfOk, map, option_map};
ghost use Rattle.std.specs.Io.KnownBytes.{Appends, Keeps};
ghost use Rattle.std.specs.String.{string_bytes};
ghost use Rattle.base_io.specs.Outside.{Rose};
ghost use Rattle.sql_parser.specs.Script.{IsRefusedScript};
ghost use Rattle.app_inputs.specs.FilesAfter.{FilesAfterInput, FilesAfterRead};
ghost use Rattle.app_inputs.specs.Printing.{IsAnswer};
ghost use Rattle.app_inputs.specs.Views.{Reads};
ghost use Rattle.app_show_plan.specs.Shown.{ShowsScript};
ghost use Rattle.app_show_plan.specs.Asked.{asked, asked_view};
ghost use Rattle.app_show_plan.specs.Printed.{IsTextOf, MeansShown, Prints, PrintsRefusal, tables_in};

use crate::place::place_line;
use crate::script::{PlanForm, ScriptPlans, script_plans};
use crate::words::{Request, read_words};
use app_inputs::{
    InputError, InputFault, ReadError, RefusedInput, Status, line_of_refusal, read_file,
    read_state, write_text,
};
use base_io::{Files, Sink};
use sql_ast::Statement;
use sql_parser::{MAX_SCRIPT, ScriptFault, ScriptRefusal, read_script};
use sqlite_items::Items;
use std::alloc::{AllocError, Global};
use std::thread::Threads;
use std::time::Clock;
use store_versions::Directory;

/// The line for words of another form.
static USAGE: &[u8] = b"usage: show_plan [--json] SCRIPT [DIR]\n";

/// The tables of a folder.
fn read_tables<F: Files>(
    alloc: Global,
    files: &mut F,
    folder: &str,
) -> Result<Directory, InputError>
    ensures input { Reads (λ tables. tt) (F.held files.old) (tables_in (Some folder.now)) result }
    ensures files { FilesAfterInput F.held F.faults F.misses result files.old files.new }
{
    let state = read_state(alloc, files, folder)?;
    let directory = Directory::new(alloc, state, (), Vec::new(alloc), 0)?;
    Ok(directory)
}

/// The tables of a folder where one is named.
fn tables_of<F: Files>(
    alloc: Global,
    files: &mut F,
    folder: Option<&str>,
) -> Result<Option<Directory>, InputError>
    ensures input { Reads (λ tables. tt) (F.held files.old)
        (tables_in (option_map (λ f. f.now) folder.entry)) result }
    ensures files { FilesAfterInput F.held F.faults F.misses result files.old files.new }
{
    match folder {
        Some(folder) => {
            let directory = read_tables(alloc, files, folder)?;
            Ok(Some(directory))
        }
        None => Ok(None),
    }
}

/// What is shown of a script's statements, over these tables, and whether none is refused.
fn plans_over<R: Threads + Sync + Clock>(
    rt: &R,
    alloc: Global,
    script: &[u8],
    statements: Items<Statement>,
    form: PlanForm,
    tables: Option<Directory>,
) -> Result<ScriptPlans, AllocError>
    ensures { IfOk result (λ all. ShowsScript form statements all.text.items all.is_clean) }
{
    script_plans(rt, alloc, script, statements, form, tables.as_ref())
}

/// What is shown of a script's statements, and its status.
fn plans_text<R: Threads + Sync + Clock>(
    rt: &R,
    alloc: Global,
    script: &[u8],
    statements: Items<Statement>,
    form: PlanForm,
    tables: Option<Directory>,
) -> Result<(Vec<u8>, Status), AllocError>
    ensures { IfOk result (λ printed. MeansShown form statements tt printed.0.items printed.1) }
{
    let ScriptPlans { text, is_clean } = plans_over(rt, alloc, script, statements, form, tables)?;
    if is_clean {
        Ok((text, Status::Done))
    } else {
        Ok((text, Status::SomeRefused))
    }
}

/// The lines of a script that is none: its refusal with its byte, and the line and the column of
/// that.
fn refused_script(
    alloc: Global,
    name: &str,
    script: &[u8],
    refusal: ScriptRefusal,
    place: usize,
) -> Result<Vec<u8>, AllocError>
    requires { IsRefusedScript refusal script.now place }
    ensures { IfOk result
        (λ text. PrintsRefusal name.now script.now text.items Status.InputRefused) }
{
    let name = String::from_str(alloc, name)?;
    let fault = InputFault::Byte(refusal, place);
    let mut text = line_of_refusal(alloc, &RefusedInput { name, fault })?;
    let more = place_line(alloc, script, place)?;
    text.extend_from_slice(more.as_slice())?;
    Ok(text)
}

/// The text for a request, and its status.
fn request_text<R: Threads + Sync + Clock, F: Files>(
    rt: &R,
    alloc: Global,
    files: &mut F,
    request: &Request<'_>,
) -> Result<(Vec<u8>, Status), InputError>
    ensures text { IsTextOf (asked_view request.now) (F.held files.old) result }
    ensures files { FilesAfterInput F.held F.faults F.misses result files.old files.new }
{
    let script = read_file(alloc, files, request.script, MAX_SCRIPT)?;
    match read_script(alloc, &script) {
        Ok(statements) => {
            let tables = tables_of(alloc, files, request.folder)?;
            let printed = plans_text(rt, alloc, &script, statements, request.form, tables)?;
            Ok(printed)
        }
        Err(ScriptFault::Refused(refusal, place)) => {
            let text = refused_script(alloc, request.script, &script, refusal, place)?;
            Ok((text, Status::InputRefused))
        }
        Err(ScriptFault::OutOfMemory) => Err(InputError::Unread(ReadError::OutOfMemory)),
    }
}

/// The text for a request, or the line of its first refused input, and its status.
fn output<R: Threads + Sync + Clock, F: Files>(
    rt: &R,
    alloc: Global,
    files: &mut F,
    request: &Request<'_>,
) -> Result<(Vec<u8>, Status), ReadError>
    ensures prints { IfOk result (λ printed. IsAnswer printed.1
        × Prints (Some (asked_view request.now)) (F.held files.old) printed.0.items printed.1) }
    ensures files { FilesAfterRead F.held F.faults F.misses result files.old files.new }
{
    match request_text(rt, alloc, files, request) {
        Ok(printed) => Ok(printed),
        Err(InputError::Refused(refused)) => {
            let text = line_of_refusal(alloc, &refused)?;
            Ok((text, Status::InputRefused))
        }
        Err(InputError::Unread(error)) => Err(error),
    }
}

/// Reads the script and the tables that the words name, and writes what becomes of each query of
/// the script; or the usage line where the words are of another form. What an answer prints is what
/// `Prints` says of the words and of the files' bytes.
///
/// # Errors
///
/// A fault of reading or writing is answered only where `files` or `out` counted one. No clause
/// says when memory runs out.
pub fn show_plan<R: Threads + Sync + Clock, F: Files, S: Sink>(
    rt: &R,
    alloc: Global,
    words: &[String],
    files: &mut F,
    out: &mut S,
) -> Status
    ensures answer { IsAnswer result → ((text : List ℕ)
        × Prints (asked (map string_bytes words.now)) (F.held files.old) text result
        × Appends (S.taken out.old) (S.taken out.new) text) }
    ensures read { result ≡ Status.ReadFault → Rose (F.faults files.old) (F.faults files.new)
        × Keeps (S.taken out.old) (S.taken out.new) }
    ensures write { result ≡ Status.WriteFault → Rose (S.faults out.old) (S.faults out.new) }
    ensures no_disk { result ≢ Status.DiskFault }
    ensures held { F.held files.new ≡ F.held files.old }
{
    let Some(request) = read_words(words) else {
        return write_text(out, USAGE, Status::Usage);
    };
    match output(rt, alloc, files, &request) {
        Ok((text, status)) => write_text(out, text.as_slice(), status),
        Err(ReadError::Fault) => Status::ReadFault,
        Err(ReadError::OutOfMemory) => Status::OutOfMemory,
    }
}
