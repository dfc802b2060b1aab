//! Laws of the definitions that the contracts cite. Each function does nothing: its contract is
//! the law.
ghost use Rattle.base_decimal.specs.Laws.{ReadsBack, RescalingKeepsTheValue, RoundsToNearest};
ghost use Rattle.base_decimal.specs.Laws.{QuotientIsNearest};
ghost use Rattle.base_decimal.specs.Laws.{PutIsOneTermMore, MergeIsBothLists, TotalIsTheSum};
ghost use Rattle.base_decimal.specs.Laws.{RemoveIsOneTermLess};
ghost use Rattle.base_decimal.specs.Cases.{Thirds, ZeroDivisor, SumPastTheEnd, AcrossScales};
ghost use Rattle.base_decimal.specs.Cases.{SumsAtTheEnd, AverageOfThree, Spelled};

/// What `write_decimal` wrote at a scale, `read_decimal` reads at it as the same coefficient.
pub fn written_is_read()
    ensures { ReadsBack }
{}

/// Numbers are rescaled without a change of their values. A quotient is the whole number nearest to
/// the exact one, a half away from zero; of sizes alone a half goes up.
pub fn arithmetic_by_value()
    ensures rescale { RescalingKeepsTheValue }
    ensures quotient { QuotientIsNearest }
    ensures sizes { RoundsToNearest }
{}

/// A tally counts and adds the terms of a list, however they came.
pub fn tally_of_terms()
    ensures put { PutIsOneTermMore }
    ensures remove { RemoveIsOneTermLess }
    ensures merge { MergeIsBothLists }
    ensures total { TotalIsTheSum }
{}

/// Small cases of the definitions, computed.
pub fn cases()
    ensures thirds { Thirds }
    ensures zero { ZeroDivisor }
    ensures past { SumPastTheEnd }
    ensures scales { AcrossScales }
    ensures sums { SumsAtTheEnd }
    ensures average { AverageOfThree }
    ensures spelled { Spelled }
{}
