//! The turn of a run.
ghost use Rattle.std.specs.Prelude.{◌≡◌, IfOk, IsTrue};
ghost use Rattle.sql_templates.specs.Templates.{filled_query};
ghost use Rattle.app_sessions.specs.Outcomes.{is_printable, run_outcome};

use crate::outcome::Outcome;
use base_refusals::Refusal;
use sql_ast::TemplateValue;
use sql_templates::{TemplateFault, fill};
use std::alloc::{AllocError, Global};

/// The refusal of a run whose template is not filled.
pub fn run_outcome(
    alloc: Global,
    number: u32,
    values: &[TemplateValue],
) -> Result<Outcome, AllocError>
    ensures outcome { IfOk result (λ o. o ≡ run_outcome (filled_query number values.now)) }
    ensures printable { IfOk result (λ o. IsTrue (is_printable o)) }
{
    match fill(alloc, number as u64, values) {
        Ok(_) => Ok(Outcome::Done),
        Err(TemplateFault::Refused(why)) => Ok(Outcome::Refused(Refusal::Template(why))),
        Err(TemplateFault::OutOfMemory) => Err(AllocError),
    }
}
