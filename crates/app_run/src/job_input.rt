//! Reading the scripts of the sessions of a job.
ghost use Rattle.std.specs.Prelude.{◌≡◌, List, Some, IfErr, IfOk, length, map, true};
ghost use Rattle.std.specs.List.{list_any};
ghost use Rattle.std.specs.String.{string_bytes};
ghost use Rattle.app_job_file.specs.Files.{IsReadable, parts_of};
ghost use Rattle.app_sessions.specs.Asked.{AllUnasked, IsUnasked};
ghost use Rattle.sql_ast.specs.declared.statement.Statement.{Statement};
ghost use Rattle.sql_parser.specs.Script.{IsReadScript};
ghost use Rattle.base_io.specs.Outside.{file_of};
ghost use Rattle.app_inputs.specs.FilesAfter.{FilesAfterInput};
ghost use Rattle.app_run.specs.JobInputs.{AreJobScripts, IsJobScript, IsRefreshByte, is_refresh};
ghost use Rattle.app_run.specs.JobInputs.{refresh_start};
ghost use Rattle.app_run.specs.JobViews.{BeginWith, IsOfBytes, IsSessionOf, IsSessionOfBytes};
ghost use Rattle.app_jobs.specs.Sources.{steps_of};
ghost use Rattle.app_inputs.specs.Views.{Finds};

use app_inputs::{InputError, InputFault, ReadError, read_file, refusal_of};
use app_sessions::Session;
use base_io::Files;
use plan_planner::SessionViews;
use sql_ast::Statement;
use sql_lexer::{Kind, LexFault, Token, lex, one_answer};
use sql_parser::{MAX_SCRIPT, ScriptFault, read_script};
use sqlite_items::Items;
use std::alloc::{AllocError, Global};

/// The byte of the first word `refresh`, or the end where there is none.
fn refresh_start(end: usize, tokens: &[Token]) -> usize
    ensures { result ≡ refresh_start end tokens.now }
{
    for token in tokens {
        if token.is(Kind::Refresh) {
            return token.start;
        }
    }
    end
}

/// The byte of the first refresh statement in the bytes of a script.
fn refresh_byte(alloc: Global, bytes: &[u8]) -> Result<usize, AllocError>
    requires { (statements : List Statement) × IsReadScript bytes.now statements }
    ensures { IfOk result (IsRefreshByte bytes.now) }
{
    match lex(alloc, bytes) {
        Ok(tokens) => Ok(refresh_start(bytes.len(), tokens.as_slice())),
        Err(LexFault::Refused(_, _)) => {
            one_answer();
            unreachable!()
        }
        Err(LexFault::OutOfMemory) => Err(AllocError),
    }
}

/// Whether a refresh is among statements.
fn has_refresh(steps: &[Statement]) -> bool
    ensures { result ≡ list_any is_refresh steps.now }
{
    steps
        .iter()
        .any(|statement| matches!(statement, Statement::Refresh(_, _)))
}

/// A session of the statements of a script, refused where a refresh is among those that they stand
/// for.
fn plain_session(
    alloc: Global,
    name: &str,
    shows_rows: bool,
    views: &SessionViews,
    bytes: &[u8],
    statements: Items<Statement>,
) -> Result<Session, InputError>
    requires { IsReadScript bytes.now statements }
    ensures session { IsSessionOf name.now bytes.now statements result }
    ensures unasked { IfOk result IsUnasked }
    ensures rows { IfOk result (λ s. s.shows_rows ≡ shows_rows) }
    ensures views { IfOk result (λ s. s.first_views ≡ views.now) }
    ensures error { IfErr result IsOfBytes }
{
    let own = views.copy(alloc)?;
    let session = Session::new(alloc, statements, shows_rows, own)?;
    if has_refresh(session.steps()) {
        let place = refresh_byte(alloc, bytes)?;
        return Err(refusal_of(alloc, name, InputFault::RefreshHere(place)));
    }
    Ok(session)
}

/// A session of the bytes of a script.
fn session_of_bytes(
    alloc: Global,
    name: &str,
    shows_rows: bool,
    views: &SessionViews,
    bytes: &[u8],
) -> Result<Session, InputError>
    ensures session { IsSessionOfBytes name.now bytes.now result }
    ensures unasked { IfOk result IsUnasked }
    ensures rows { IfOk result (λ s. s.shows_rows ≡ shows_rows) }
    ensures views { IfOk result (λ s. s.first_views ≡ views.now) }
    ensures error { IfErr result IsOfBytes }
{
    match read_script(alloc, bytes) {
        Ok(statements) => plain_session(alloc, name, shows_rows, views, bytes, statements),
        Err(ScriptFault::Refused(refusal, place)) => {
            Err(refusal_of(alloc, name, InputFault::Byte(refusal, place)))
        }
        Err(ScriptFault::OutOfMemory) => Err(InputError::Unread(ReadError::OutOfMemory)),
    }
}

/// A session of the script of that name, at its beginning.
fn read_session<F: Files>(
    alloc: Global,
    files: &mut F,
    name: &str,
    shows_rows: bool,
    views: &SessionViews,
) -> Result<Session, InputError>
    ensures input { Finds steps_of (F.held files.old)
        (λ folder. IsJobScript folder name.now) result }
    ensures unasked { IfOk result IsUnasked }
    ensures rows { IfOk result (λ s. s.shows_rows ≡ shows_rows) }
    ensures views { IfOk result (λ s. s.first_views ≡ views.now) }
    ensures files { FilesAfterInput F.held F.faults F.misses result files.old files.new }
{
    let bytes = read_file(alloc, files, name, MAX_SCRIPT)?;
    let session = session_of_bytes(alloc, name, shows_rows, views, &bytes)?;
    Ok(session)
}

/// Sessions of the scripts of these names, at their beginning, each with these views.
pub fn read_sessions<F: Files>(
    alloc: Global,
    files: &mut F,
    names: &[String],
    shows_rows: bool,
    views: &SessionViews,
) -> Result<Vec<Session>, InputError>
    ensures input { Finds (λ v. map steps_of v.items) (F.held files.old)
        (λ folder. AreJobScripts folder (map string_bytes names.now)) result }
    ensures length { IfOk result (λ v. length v.items ≡ length names.now) }
    ensures unasked { IfOk result (λ v. AllUnasked v.items) }
    ensures begins { IfOk result (λ v. BeginWith shows_rows views.now v.items) }
    ensures files { FilesAfterInput F.held F.faults F.misses result files.old files.new }
{
    let mut sessions = Vec::new(alloc);
    'reading: for name in names {
        let session = read_session(alloc, files, name.as_str(), shows_rows, views)?;
        sessions.push(session)?;
    }
    Ok(sessions)
}
