//! Laws of conditions, and rules that fail with faults.
ghost use Rattle.expr_conditions.specs.ConditionLaws.{AndFlattens, OrFlattens, InAnyOrder, FactorOut};
ghost use Rattle.expr_conditions.specs.ConditionLaws.{ImpliedByOr, NoDeMorgan, NoEqualityThroughFaults};

/// An AND within an AND is one AND.
pub fn and_flattens()
    ensures { AndFlattens }
{}

/// An OR within an OR is one OR.
pub fn or_flattens()
    ensures { OrFlattens }
{}

/// AND and OR don't depend on the order.
pub fn in_any_order()
    ensures { InAnyOrder }
{}

/// A common factor is taken out of OR.
pub fn factor_out()
    ensures { FactorOut }
{}

/// What each part of an OR implies may be asked besides.
pub fn implied_by_or()
    ensures { ImpliedByOr }
{}

/// De Morgan's rule fails with faults.
pub fn no_de_morgan()
    ensures { NoDeMorgan }
{}

/// An equality that follows from two others may not be added, where the value between is a fault.
pub fn no_equality_through_faults()
    ensures { NoEqualityThroughFaults }
{}
