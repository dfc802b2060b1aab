//! The node laws of unnesting, for one domain row.

ghost use Rattle.std.specs.Prelude.{Bool};
ghost use Rattle.base_row_laws.specs.Bags.{IsIdentity};
ghost use Rattle.base_row_laws.specs.LoopLaws.{ClosedMeets, SelectMeets, ProjectMeets, JoinMeets};
ghost use Rattle.base_row_laws.specs.LoopLaws.{OuterMeets, AttachMeets, MarkMeets, SingleMeets};
ghost use Rattle.base_row_laws.specs.LoopLaws.{GroupMeets, KeyMeets, LocalMeets, DistinctMeets};

/// A node over no domain columns: its rows are the rows themselves.
pub fn closed_meets<V>()
    ensures { (same : V → V → Bool) → IsIdentity same → ClosedMeets same }
{}

/// Selection under one domain row.
pub fn select_meets<V>()
    ensures { (same : V → V → Bool) → IsIdentity same → SelectMeets same }
{}

/// Projection, which keeps the domain columns, under one domain row.
pub fn project_meets<V>()
    ensures { (same : V → V → Bool) → IsIdentity same → ProjectMeets same }
{}

/// The inner join under one domain row.
pub fn join_meets<V>()
    ensures { (same : V → V → Bool) → IsIdentity same → JoinMeets same }
{}

/// The left outer join under one domain row.
pub fn outer_meets<V>()
    ensures { (same : V → V → Bool) → IsIdentity same → OuterMeets same }
{}

/// A column that is a function of the left row and of the bag of its partners, under one domain
/// row.
pub fn attach_meets<V>()
    ensures { (same : V → V → Bool) → IsIdentity same → AttachMeets same }
{}

/// The mark of EXISTS and IN under one domain row.
pub fn mark_meets<V>()
    ensures { (same : V → V → Bool) → IsIdentity same → MarkMeets same }
{}

/// A scalar subquery's value under one domain row.
pub fn single_meets<V>()
    ensures { (same : V → V → Bool) → IsIdentity same → SingleMeets same }
{}

/// GROUP BY, which takes the domain's columns among its own, under one domain row.
pub fn group_meets<V>()
    ensures { (same : V → V → Bool) → IsIdentity same → GroupMeets same }
{}

/// Aggregates without GROUP BY under one domain row, before the fill: groups by the domain's
/// columns alone.
pub fn key_meets<V>()
    ensures { (same : V → V → Bool) → IsIdentity same → KeyMeets same }
{}

/// A right side that has the domain's values in columns bs of its own, and asks in its WHERE that
/// they equal the domain's, needs no domain: its rows take their own values as domain columns, and
/// the equality becomes a condition on these alone, as `is not null`.
pub fn local_meets<V>()
    ensures { (same : V → V → Bool) → IsIdentity same → LocalMeets same }
{}

/// DISTINCT under one domain row.
pub fn distinct_meets<V>()
    ensures { (same : V → V → Bool) → IsIdentity same → DistinctMeets same }
{}
