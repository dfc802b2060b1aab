//! Refusals of a query that does not bind.
ghost use Rattle.std.specs.Prelude.{◌≡◌};
ghost use Rattle.base_refusals.specs.Bind.{bind_refusal_name, bind_refusal_number};

/// Why a query does not bind, in the order of the numbers that are printed.
#[derive(Clone, Copy, Debug, PartialEq, Eq, PartialOrd, Ord, Hash)]
pub enum BindRefusal {
    /// A FROM name is no table and no view of the session.
    UnknownTable,
    /// No column of that name is in sight.
    UnknownColumn,
    /// The innermost query that has the name has two columns of it.
    AmbiguousColumn,
    /// Two FROM items of one query, or two names of one column list, are equal.
    DuplicateAlias,
    /// The kinds of operands do not fit.
    TypeMismatch,
    /// A column that is no GROUP BY column stands outside an aggregate of a grouped query.
    NotGrouped,
    /// An aggregate stands in an aggregate, in WHERE or in ON.
    NestedAggregate,
    /// An aggregate's argument uses a column of an outer query.
    OuterAggregate,
    /// A derived table uses a name that only a surrounding query has.
    LateralReference,
    /// A subquery has not the one column that its place asks for,
    /// or a column list has another length than its query.
    SubqueryColumns,
    /// A product's scale passes 18.
    ScaleTooWide,
    /// An interval is not added to or taken from a date literal.
    IntervalOnColumn,
    /// A date literal is no date of the years 1 to 9999.
    BadDate,
    /// A moved date literal leaves the years 1 to 9999.
    DateRange,
    /// A subquery stands in ON or in an aggregate's argument.
    SubqueryPlace,
    /// The statement has more than 32 FROM items.
    TooManyTables,
    /// The sides of a set operation have different numbers of columns.
    SetColumns,
}

impl BindRefusal {
    /// The number that is printed: from 1 to 16, and 18.
    pub fn number(self) -> u8
        ensures { result ≡ bind_refusal_number self }
    {
        match self {
            BindRefusal::UnknownTable => 1,
            BindRefusal::UnknownColumn => 2,
            BindRefusal::AmbiguousColumn => 3,
            BindRefusal::DuplicateAlias => 4,
            BindRefusal::TypeMismatch => 5,
            BindRefusal::NotGrouped => 6,
            BindRefusal::NestedAggregate => 7,
            BindRefusal::OuterAggregate => 8,
            BindRefusal::LateralReference => 9,
            BindRefusal::SubqueryColumns => 10,
            BindRefusal::ScaleTooWide => 11,
            BindRefusal::IntervalOnColumn => 12,
            BindRefusal::BadDate => 13,
            BindRefusal::DateRange => 14,
            BindRefusal::SubqueryPlace => 15,
            BindRefusal::TooManyTables => 16,
            BindRefusal::SetColumns => 18,
        }
    }

    /// The name that is printed.
    pub fn name(self) -> &'static str
        ensures { result.now ≡ bind_refusal_name self }
    {
        match self {
            BindRefusal::UnknownTable => "UnknownTable",
            BindRefusal::UnknownColumn => "UnknownColumn",
            BindRefusal::AmbiguousColumn => "AmbiguousColumn",
            BindRefusal::DuplicateAlias => "DuplicateAlias",
            BindRefusal::TypeMismatch => "TypeMismatch",
            BindRefusal::NotGrouped => "NotGrouped",
            BindRefusal::NestedAggregate => "NestedAggregate",
            BindRefusal::OuterAggregate => "OuterAggregate",
            BindRefusal::LateralReference => "LateralReference",
            BindRefusal::SubqueryColumns => "SubqueryColumns",
            BindRefusal::ScaleTooWide => "ScaleTooWide",
            BindRefusal::IntervalOnColumn => "IntervalOnColumn",
            BindRefusal::BadDate => "BadDate",
            BindRefusal::DateRange => "DateRange",
            BindRefusal::SubqueryPlace => "SubqueryPlace",
            BindRefusal::TooManyTables => "TooManyTables",
            BindRefusal::SetColumns => "SetColumns",
        }
    }
}
