//! The plans of a script's statements.
ghost use Rattle.std.specs.Prelude.{◌≡◌, List, IfOk};
ghost use Rattle.app_sessions.specs.Expansion.{ExpandAll};
ghost use Rattle.sql_ast.specs.declared.statement.Statement.{Statement};
ghost use Rattle.app_inputs.specs.FilesAfter.{FilesAfterInput};
ghost use Rattle.app_run.specs.ScriptPlans.{MeansExplained};
ghost use Rattle.app_run.specs.JobMeaning.{DiskTold};
ghost use Rattle.app_run.specs.Views.{IsTextOf};
ghost use Rattle.app_inputs.specs.Words.Command.{explain};

use app_inputs::{InputError, Status, read_statements};
use app_sessions::{Explained, explain};
use base_io::Files;
use sql_ast::Statement;
use sqlite_items::Items;
use std::alloc::{AllocError, Global};

/// The lines of a script's statements, and their status.
fn explain_statements(
    alloc: Global,
    statements: Items<Statement>,
) -> Result<(Vec<u8>, Status), AllocError>
    ensures { IfOk result (λ printed. (steps : List Statement) × ExpandAll statements steps
        × MeansExplained steps printed.0.items printed.1) }
{
    let explained = explain(alloc, statements)?;
    let Explained { text, is_clean } = explained;
    if is_clean {
        Ok((text, Status::Done))
    } else {
        Ok((text, Status::SomeRefused))
    }
}

/// The lines of the statements of that script, and their status.
pub fn explain_text<F: Files>(
    alloc: Global,
    files: &mut F,
    script: &str,
) -> Result<(Vec<u8>, Status), InputError>
    ensures text { (disk : DiskTold)
        → IsTextOf (explain script.now) (F.held files.old) disk result }
    ensures files { FilesAfterInput F.held F.faults F.misses result files.old files.new }
{
    let statements = read_statements(alloc, files, script)?;
    let printed = explain_statements(alloc, statements)?;
    Ok(printed)
}
