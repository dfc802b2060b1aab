//! Laws of binding. Each function does nothing: its contract is the law.
ghost use Rattle.sql_binder.specs.Examples.{FirstRefusals, LaterRefusals};
ghost use Rattle.sql_binder.specs.EdgeCases.{MovedDates, ViewOfNames, Chains, ConditionsAsValues};
ghost use Rattle.sql_binder.specs.EdgeCases.{Groups, SightsOfParts, OrderInFrom, OrderInViews};
ghost use Rattle.sql_binder.specs.WithCases.{NamesOfWith, RefusalsOfWith};
ghost use Rattle.sql_binder.specs.LateralCases.{BoundLaterals, RefusedLaterals};
ghost use Rattle.sql_binder.specs.SetCases.{BoundSets, RefusedSets};
ghost use Rattle.sql_binder.specs.Laws.{Resolution, OnlyColumn, BoundOrRefused, NotBoth, OneWay};

/// A name is looked for in the innermost query that has it, and nowhere else; and the place that it
/// means there is that of the only column that it may stand for.
pub fn names_are_innermost()
    ensures resolution { Resolution }
    ensures only { OnlyColumn }
{}

/// Each query is bound or refused, not both, in one way or for one cause.
pub fn bound_or_refused()
    ensures one { BoundOrRefused }
    ensures apart { NotBoth }
    ensures way { OneWay }
{}

/// A query for each refusal.
pub fn worked_refusals()
    ensures first { FirstRefusals }
    ensures later { LaterRefusals }
    ensures with_queries { RefusalsOfWith }
    ensures laterals { RefusedLaterals }
    ensures sets { RefusedSets }
{}

/// Queries bound by hand, and where the order of binding or the sight of a part decides.
pub fn worked_bindings()
    ensures dates { MovedDates }
    ensures view { ViewOfNames }
    ensures chains { Chains }
    ensures conditions { ConditionsAsValues }
    ensures groups { Groups }
    ensures sights { SightsOfParts }
    ensures order { OrderInFrom }
    ensures view_order { OrderInViews }
    ensures with_queries { NamesOfWith }
    ensures laterals { BoundLaterals }
    ensures sets { BoundSets }
{}
