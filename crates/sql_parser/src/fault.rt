//! Why tokens or bytes are no script.
ghost use Rattle.std.specs.Prelude.{◌≡◌};
ghost use Rattle.sql_parser.specs.Faults.{of_lexer, of_parser};

use sql_grammar_laws::SyntaxFault;
use sql_lexer::LexRefusal;

/// Why tokens are no script.
#[derive(Debug, Drop)]
pub enum ParseFault {
    /// Memory ran out.
    OutOfMemory,
    /// The first refusal, and the number of its token, counted from 0.
    Refused(SyntaxFault, usize),
}

/// Why bytes are no script.
#[derive(Clone, Copy, Debug, PartialEq, Eq)]
pub enum ScriptRefusal {
    /// 1: a byte of no token, or one that a text may not have.
    BadByte,
    /// 2: a text that doesn't end, at its opening quote.
    OpenText,
    /// 3: a number whose coefficient passes 2^127 - 1.
    NumberTooWide,
    /// 4: a number with more than 18 digits after the point.
    ScaleTooWide,
    /// 5: a token after which nothing is a script.
    Unexpected,
    /// 6: a token that opens the 65th level.
    TooDeep,
    /// 7: more than 1048576 bytes.
    TooLong,
    /// 8: the first token of the 1025th element of a list or chain.
    TooWide,
}

/// Why a script is not read.
#[derive(Debug, Drop)]
pub enum ScriptFault {
    /// Memory ran out.
    OutOfMemory,
    /// The first refusal, and its byte, counted from 0.
    Refused(ScriptRefusal, usize),
}

/// A refusal of the lexer as one of the script.
pub(crate) fn of_lexer(refusal: LexRefusal) -> ScriptRefusal
    ensures { result ≡ of_lexer refusal }
{
    match refusal {
        LexRefusal::BadByte => ScriptRefusal::BadByte,
        LexRefusal::OpenText => ScriptRefusal::OpenText,
        LexRefusal::NumberTooWide => ScriptRefusal::NumberTooWide,
        LexRefusal::ScaleTooWide => ScriptRefusal::ScaleTooWide,
    }
}

/// A refusal of the parser as one of the script.
pub(crate) fn of_parser(refusal: SyntaxFault) -> ScriptRefusal
    ensures { result ≡ of_parser refusal }
{
    match refusal {
        SyntaxFault::Unexpected => ScriptRefusal::Unexpected,
        SyntaxFault::TooDeep => ScriptRefusal::TooDeep,
        SyntaxFault::TooWide => ScriptRefusal::TooWide,
    }
}
