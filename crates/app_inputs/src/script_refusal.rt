//! Refusals of a script as they are printed.
ghost use Rattle.std.specs.Prelude.{◌≡◌};
ghost use Rattle.app_inputs.specs.ScriptRefusals.{script_refusal_name, script_refusal_number};

use sql_parser::ScriptRefusal;

/// The number that is printed, from 1 to 8.
pub fn refusal_number(refusal: ScriptRefusal) -> u8
    ensures { result ≡ script_refusal_number refusal }
{
    match refusal {
        ScriptRefusal::BadByte => 1,
        ScriptRefusal::OpenText => 2,
        ScriptRefusal::NumberTooWide => 3,
        ScriptRefusal::ScaleTooWide => 4,
        ScriptRefusal::Unexpected => 5,
        ScriptRefusal::TooDeep => 6,
        ScriptRefusal::TooLong => 7,
        ScriptRefusal::TooWide => 8,
    }
}

/// The name that is printed.
pub fn refusal_name(refusal: ScriptRefusal) -> &'static str
    ensures { result.now ≡ script_refusal_name refusal }
{
    match refusal {
        ScriptRefusal::BadByte => "BadByte",
        ScriptRefusal::OpenText => "OpenText",
        ScriptRefusal::NumberTooWide => "NumberTooWide",
        ScriptRefusal::ScaleTooWide => "ScaleTooWide",
        ScriptRefusal::Unexpected => "Unexpected",
        ScriptRefusal::TooDeep => "TooDeep",
        ScriptRefusal::TooLong => "TooLong",
        ScriptRefusal::TooWide => "TooWide",
    }
}
