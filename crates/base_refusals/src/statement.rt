//! Refusals of a statement.
ghost use Rattle.std.specs.Prelude.{◌≡◌};
ghost use Rattle.base_refusals.specs.Statement.{fault_kind_name, fault_kind_number, refusal_name};
ghost use Rattle.base_refusals.specs.Statement.{refusal_number, template_refusal_name};
ghost use Rattle.base_refusals.specs.Statement.{template_refusal_number};

use crate::bind::BindRefusal;
use crate::refresh::Cause;

/// Which fault an answer has, in the order of the numbers.
#[derive(Clone, Copy, Debug, PartialEq, Eq, PartialOrd, Ord, Hash)]
pub enum FaultKind {
    /// A number leaves its range.
    NumberRange,
    /// A divisor is zero.
    DivideByZero,
    /// A scalar subquery has more than one row.
    TooManyRows,
}

impl FaultKind {
    /// The kind's number, from 1 to 3, which is printed as an argument.
    pub fn number(self) -> u8
        ensures { result ≡ fault_kind_number self }
    {
        match self {
            FaultKind::NumberRange => 1,
            FaultKind::DivideByZero => 2,
            FaultKind::TooManyRows => 3,
        }
    }

    /// The kind's name, which is printed as an argument.
    pub fn name(self) -> &'static str
        ensures { result.now ≡ fault_kind_name self }
    {
        match self {
            FaultKind::NumberRange => "NumberRange",
            FaultKind::DivideByZero => "DivideByZero",
            FaultKind::TooManyRows => "TooManyRows",
        }
    }
}

/// Why a template is not filled, in the order in which it is tested.
#[derive(Clone, Copy, Debug, PartialEq, Eq, Hash)]
pub enum TemplateRefusal {
    /// No template has the number.
    NoSuchQuery,
    /// The template has another number of places than there are values.
    WrongCount,
    /// The value of this place, from 1, is of another kind than the place.
    WrongKind(u32),
}

impl TemplateRefusal {
    /// The number that is printed, from 30 to 32.
    pub fn number(self) -> u8
        ensures { result ≡ template_refusal_number self }
    {
        match self {
            TemplateRefusal::NoSuchQuery => 30,
            TemplateRefusal::WrongCount => 31,
            TemplateRefusal::WrongKind(_) => 32,
        }
    }

    /// The name that is printed.
    pub fn name(self) -> &'static str
        ensures { result.now ≡ template_refusal_name self }
    {
        match self {
            TemplateRefusal::NoSuchQuery => "NoSuchQuery",
            TemplateRefusal::WrongCount => "WrongCount",
            TemplateRefusal::WrongKind(_) => "WrongKind",
        }
    }
}

/// Why a statement is refused, as its line of text says.
#[derive(Clone, Copy, Debug, PartialEq, Eq, Hash)]
pub enum Refusal {
    /// The query, or a view's, does not bind.
    Bind(BindRefusal),
    /// A table or a view has the name of the view that is to be made.
    ViewExists,
    /// No view has the name.
    UnknownView,
    /// The answer has a fault of this kind.
    Fault(FaultKind),
    /// The template of a `run` is not filled.
    Template(TemplateRefusal),
    /// The refresh is refused.
    Refresh(Cause),
}

impl Refusal {
    /// The number that is printed: 1 to 16, 20 to 22, 30 to 32, or 40 plus a cause's.
    pub fn number(self) -> u8
        ensures { result ≡ refusal_number self }
    {
        match self {
            Refusal::Bind(refusal) => refusal.number(),
            Refusal::ViewExists => 20,
            Refusal::UnknownView => 21,
            Refusal::Fault(_) => 22,
            Refusal::Template(refusal) => refusal.number(),
            Refusal::Refresh(cause) => 40 + cause.number(),
        }
    }

    /// The name that is printed.
    pub fn name(self) -> &'static str
        ensures { result.now ≡ refusal_name self }
    {
        match self {
            Refusal::Bind(refusal) => refusal.name(),
            Refusal::ViewExists => "ViewExists",
            Refusal::UnknownView => "UnknownView",
            Refusal::Fault(_) => "Fault",
            Refusal::Template(refusal) => refusal.name(),
            Refusal::Refresh(cause) => cause.name(),
        }
    }
}
