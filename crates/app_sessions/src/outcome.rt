//! What comes of a statement.
ghost use Rattle.std.specs.Prelude.{◌≡◌};
ghost use Rattle.app_sessions.specs.Outcomes.{is_refusal, kind_of_fault};

use app_result_text::VersionRefusal;
use base_refusals::{FaultKind, Refusal};
use base_value::Fault;
use exec_ordered_rows::OrderedRows;

/// What comes of a statement.
pub enum Outcome {
    /// The rows of an answer, in order.
    Rows(OrderedRows),
    /// A view was made or dropped.
    Done,
    /// A refresh was accepted and made the version of this number.
    Accepted(u64),
    /// It is refused.
    Refused(Refusal),
    /// It is refused for the version that it names.
    VersionRefused(VersionRefusal),
}

impl Drop for Outcome {
    #[inline]
    fn drop(self) {
        match self {
            Outcome::Rows(kept) => drop(kept),
            Outcome::Done => {}
            Outcome::Accepted(_) => {}
            Outcome::Refused(kept) => drop(kept),
            Outcome::VersionRefused(kept) => drop(kept),
        }
    }
}

impl Outcome {
    /// Whether the statement is refused.
    pub fn is_refusal(&self) -> bool
        ensures { result ≡ is_refusal self.now }
    {
        matches!(self, Outcome::Refused(_) | Outcome::VersionRefused(_))
    }
}

/// The kind of a fault, as refusals name it.
pub(crate) fn kind_of_fault(fault: Fault) -> FaultKind
    ensures { result ≡ kind_of_fault fault }
{
    match fault {
        Fault::TooManyRows => FaultKind::TooManyRows,
        Fault::DivideByZero => FaultKind::DivideByZero,
        Fault::NumberRange => FaultKind::NumberRange,
    }
}
