//! What a reading of tokens is refused for.
ghost use Rattle.std.specs.Prelude.{◌≡◌};
ghost use Rattle.sql_grammar_laws.specs.declared.fault.SyntaxError.TheVariants.{OutOfMemory};

use std::alloc::{AllocError, AllocFailed};

/// Why the tokens are no text of a grammar.
#[derive(Clone, Copy, Debug, PartialEq, Eq)]
pub enum SyntaxFault {
    /// No text begins with the tokens up to this one.
    Unexpected,
    /// The token opens one level too many.
    TooDeep,
    /// The token begins an element of a list that is one too many.
    TooWide,
}

/// Why a reading of tokens ended before its end.
#[derive(Debug, Drop)]
pub enum SyntaxError {
    /// Memory ran out.
    OutOfMemory,
    /// The tokens are refused.
    Refused(SyntaxFault),
}

impl From<AllocError> for SyntaxError {
    ghost from_gives = { λ _ e. e ≡ OutOfMemory };

    fn from(_e: AllocError) -> SyntaxError {
        SyntaxError::OutOfMemory
    }
}

impl<T: Drop> From<AllocFailed<T>> for SyntaxError {
    ghost from_gives = { λ _ e. e ≡ OutOfMemory };

    fn from(_e: AllocFailed<T>) -> SyntaxError {
        Self::OutOfMemory
    }
}
