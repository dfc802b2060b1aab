//! Kinds of values, and what it is for an expression to be well typed.
ghost use Rattle.expr_scalar.specs.Known.{ConditionsGiveNoKind, NullsComeFromNulls};
ghost use Rattle.expr_scalar.specs.Typing.{WellTypedGivesItsKind};

use base_decimal::Scale;

/// What the values of a column or an expression are, beside nulls and faults.
#[derive(Clone, Copy, PartialEq, Eq)]
pub enum Kind {
    /// Numbers of one scale.
    Number(Scale),
    /// Texts of whatever length.
    Text,
    /// Dates.
    Date,
}

/// A law: over a row of the kinds, an expression that gives a kind has a value of that kind and
/// scale, null or a fault.
pub fn well_typed_gives_its_kind()
    ensures { WellTypedGivesItsKind }
{}

/// Laws: a condition gives no kind; and over a row of the kinds without a null, a well-typed
/// expression in which no null is written is not null, and a well-typed condition not Unknown. So
/// kinds that do not fit are never met by well-typed ones: only a null makes a null.
pub fn well_typed_conditions()
    ensures apart { ConditionsGiveNoKind }
    ensures known { NullsComeFromNulls }
{}
