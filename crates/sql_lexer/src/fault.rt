//! What a script's bytes are refused for.
ghost use Rattle.std.specs.Prelude.{◌≡◌};
ghost use Rattle.sql_lexer.specs.declared.fault.LexFault.TheVariants.{OutOfMemory};

use std::alloc::{AllocError, AllocFailed};

/// Why bytes are no tokens.
#[derive(Clone, Copy, Debug, PartialEq, Eq)]
pub enum LexRefusal {
    /// 1: a byte of no token, a byte of a text outside 0x20 to 0x7E, or a letter directly after a
    /// number.
    BadByte,
    /// 2: a text that doesn't end, at its opening quote.
    OpenText,
    /// 3: a number whose coefficient passes 2^127 - 1.
    NumberTooWide,
    /// 4: a number with more than 18 digits after the point.
    ScaleTooWide,
}

/// Why a script has no tokens.
#[derive(Debug, Drop)]
pub enum LexFault {
    /// Memory ran out.
    OutOfMemory,
    /// The first refusal from the left, and its byte, counted from 0.
    Refused(LexRefusal, usize),
}

impl From<AllocError> for LexFault {
    ghost from_gives = { λ _ e. e ≡ OutOfMemory };

    fn from(_e: AllocError) -> LexFault {
        LexFault::OutOfMemory
    }
}

impl<T: Drop> From<AllocFailed<T>> for LexFault {
    ghost from_gives = { λ _ e. e ≡ OutOfMemory };

    fn from(_e: AllocFailed<T>) -> LexFault {
        Self::OutOfMemory
    }
}
