//! Truth is a chain: False, Unknown, the faults, True. AND is the lesser and OR the greater.
ghost use Rattle.std.specs.Prelude.{◌≡◌, ◌<◌, ◌≤◌, min, max, MatchOption};
ghost use Rattle.base_row_laws.specs.Ranked.{unknown_rank};
ghost use Rattle.base_value.specs.Truth.{lesser, greater, negated, kept, lesser_standing};
ghost use Rattle.base_value.specs.Truth.{greater_standing, standing_rank, truth_rank};

/// What went wrong where a value was to be computed, from the least fault of the chain to the
/// greatest.
#[derive(Clone, Copy, Debug, PartialEq, Eq, PartialOrd, Ord, Hash)]
pub enum Fault {
    /// A scalar subquery has more than one row.
    TooManyRows,
    /// A quotient's divisor is zero.
    DivideByZero,
    /// A coefficient passes 128 bits.
    NumberRange,
}

/// How a row stands: at True, or at a fault, which is less.
#[derive(Clone, Copy, Debug, PartialEq, Eq, PartialOrd, Ord, Hash)]
pub enum Standing {
    AtFault(Fault),
    AtTrue,
}

impl Standing {
    /// The lesser of two standings, as of a joined row.
    pub fn lesser(self, other: Standing) -> Standing
        ensures value { result ≡ lesser_standing self other }
        ensures rank { standing_rank result ≡ min (standing_rank self) (standing_rank other) }
    {
        self.min(other)
    }

    /// The greater of two standings, as of identical rows.
    pub fn greater(self, other: Standing) -> Standing
        ensures value { result ≡ greater_standing self other }
        ensures rank { standing_rank result ≡ max (standing_rank self) (standing_rank other) }
    {
        self.max(other)
    }
}

/// The value of a condition.
#[derive(Clone, Copy, Debug, PartialEq, Eq, PartialOrd, Ord, Hash)]
pub enum Truth {
    False,
    Unknown,
    /// A fault or True: a row under this condition stands so.
    Stands(Standing),
}

impl Truth {
    /// AND: the lesser.
    pub fn and(self, other: Truth) -> Truth
        ensures value { result ≡ lesser self other }
        ensures rank { truth_rank result ≡ min (truth_rank self) (truth_rank other) }
    {
        self.min(other)
    }

    /// OR: the greater.
    pub fn or(self, other: Truth) -> Truth
        ensures value { result ≡ greater self other }
        ensures rank { truth_rank result ≡ max (truth_rank self) (truth_rank other) }
    {
        self.max(other)
    }

    /// NOT: exchanges True and False, and leaves the rest.
    pub fn negated(self) -> Truth
        ensures { result ≡ negated self }
    {
        match self {
            Truth::False => Truth::Stands(Standing::AtTrue),
            Truth::Stands(Standing::AtTrue) => Truth::False,
            other => other,
        }
    }

    /// How a row that stands so goes on under this condition, if it is kept: at the lesser of both,
    /// where that is above Unknown.
    pub fn kept(self, standing: Standing) -> Option<Standing>
        ensures value { result ≡ kept standing self }
        ensures rank { MatchOption result
            (min (standing_rank standing) (truth_rank self) ≤ unknown_rank)
            (λ s. (unknown_rank < standing_rank s)
            × (standing_rank s ≡ min (standing_rank standing) (truth_rank self))) }
    {
        match self {
            Truth::Stands(by) => Some(standing.min(by)),
            _ => None,
        }
    }
}
