//! The version over which a statement is asked, and the one in its line.
ghost use Rattle.std.specs.Prelude.{◌≡◌};
ghost use Rattle.app_sessions.specs.Versions.{printed_version, version_named};

use crate::outcome::Outcome;
use base_refusals::Refusal;
use sql_ast::Statement;

/// The version that a statement names; queries alone can name one.
pub(crate) fn version_named(statement: &Statement) -> Option<u32>
    ensures { result ≡ version_named statement.now }
{
    match statement {
        Statement::Query(query) => query.version,
        Statement::CreateView(_, _, _)
        | Statement::DropView(_)
        | Statement::Refresh(_, _)
        | Statement::Run(_, _) => None,
    }
}

/// The version in the line of a statement that began over a version and names one or none.
pub(crate) fn printed_version(begun: u64, named: Option<u32>, outcome: &Outcome) -> u64
    ensures { result ≡ printed_version begun named outcome.now }
{
    match (named, outcome) {
        (Some(named), Outcome::Rows(_) | Outcome::Refused(Refusal::Fault(_))) => named as u64,
        _ => begun,
    }
}
