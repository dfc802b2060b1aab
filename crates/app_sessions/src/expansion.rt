//! The statements that a script stands for: each run is replaced by the statements of its filled
//! text.
ghost use Rattle.std.specs.Prelude.{◌≡◌, ◌++◌, List, IfOk, IfSome, OnOk, option_map, reverse};
ghost use Rattle.sql_templates.specs.Laws.{IsSomeScript};
ghost use Rattle.sql_templates.specs.Templates.{filled_query};
ghost use Rattle.sql_ast.specs.declared.statement.Statement.{Statement};
ghost use Rattle.sql_parser.specs.Script.{IsReadScript};
ghost use Rattle.app_sessions.specs.Expansion.{ExpandAll, Expands, run_text, text_or_none};

use sql_ast::{Statement, TemplateValue};
use sql_parser::{ScriptFault, read_script};
use sql_templates::{TemplateFault, fill};
use sqlite_items::Items;
use std::alloc::{AllocError, Global};

/// The filled text of a run, where its template is filled.
fn filled_run(
    alloc: Global,
    number: u32,
    values: &[TemplateValue],
) -> Result<Option<Vec<u8>>, AllocError>
    ensures text { IfOk result (λ text. option_map (λ t. t.items) text
        ≡ text_or_none (filled_query number values.now)) }
    ensures script { IfOk result (λ text. IfSome text (λ t. IsSomeScript t.items)) }
{
    match fill(alloc, number as u64, values) {
        Ok(text) => Ok(Some(text)),
        Err(TemplateFault::Refused(_)) => Ok(None),
        Err(TemplateFault::OutOfMemory) => Err(AllocError),
    }
}

/// The filled text of a statement that is a run, where its template is filled.
fn text_of_run(alloc: Global, statement: &Statement) -> Result<Option<Vec<u8>>, AllocError>
    ensures text { IfOk result (λ text. option_map (λ t. t.items) text ≡ run_text statement.now) }
    ensures script { IfOk result (λ text. IfSome text (λ t. IsSomeScript t.items)) }
{
    match statement {
        Statement::Run(number, values) => {
            let text = filled_run(alloc, *number, values.as_slice())?;
            Ok(text)
        }
        Statement::Query(_)
        | Statement::CreateView(_, _, _)
        | Statement::DropView(_)
        | Statement::Refresh(_, _) => Ok(None),
    }
}

/// The statements of a filled text, which is a script.
fn statements_of(alloc: Global, text: &[u8]) -> Result<Items<Statement>, AllocError>
    requires { IsSomeScript text.now }
    ensures { IfOk result (λ steps. IsReadScript text.now steps) }
{
    match read_script(alloc, text) {
        Ok(statements) => Ok(statements),
        Err(ScriptFault::OutOfMemory) => Err(AllocError),
        Err(ScriptFault::Refused(_, _)) => unreachable!(),
    }
}

/// Appends the statements that a statement stands for.
fn put_steps(
    alloc: Global,
    steps: &mut Items<Statement>,
    statement: Statement,
) -> Result<(), AllocError>
    ensures { OnOk result ((more : List Statement) × Expands statement more
        × (steps.new ≡ steps.old ++ more)) }
{
    match text_of_run(alloc, &statement)? {
        Some(text) => {
            let more = statements_of(alloc, text.as_slice())?;
            steps.append(more)
        }
        None => {
            steps.push(statement)?;
            Ok(())
        }
    }
}

/// Statements from the last to the first.
fn reverse_statements(
    alloc: Global,
    statements: Items<Statement>,
) -> Result<Items<Statement>, AllocError>
    ensures { IfOk result (λ turned. turned ≡ reverse statements) }
{
    let mut left = statements;
    let mut found = Items::new(alloc);
    'left: while let Some(statement) = left.pop() {
        found.push(statement)?;
    }
    Ok(found)
}

/// The statements that a script's stand for.
pub fn expand(alloc: Global, statements: Items<Statement>) -> Result<Items<Statement>, AllocError>
    ensures { IfOk result (λ steps. ExpandAll statements steps) }
{
    let mut left = reverse_statements(alloc, statements)?;
    let mut steps = Items::new(alloc);
    'left: while let Some(statement) = left.pop() {
        put_steps(alloc, &mut steps, statement)?;
    }
    Ok(steps)
}
