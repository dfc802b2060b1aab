//! Each operator gives one bag for one bag.

ghost use Rattle.std.specs.Prelude.{Bool};
ghost use Rattle.base_row_laws.specs.Bags.{IsIdentity};
ghost use Rattle.base_row_laws.specs.AlikeLaws.{SelectAlike, ProjectAlike, CrossAlike, JoinNodeAlike};
ghost use Rattle.base_row_laws.specs.AlikeLaws.{OuterNodeAlike, AttachNodeAlike, MarkNodeAlike};
ghost use Rattle.base_row_laws.specs.AlikeLaws.{SingleNodeAlike, GroupAlike, TotalAlike, DistinctAlike};
ghost use Rattle.base_row_laws.specs.AlikeLaws.{DomainNodeAlike, FillAlike, JoinLoopAlike};
ghost use Rattle.base_row_laws.specs.AlikeLaws.{OuterLoopAlike, AttachLoopAlike};

/// WHERE and HAVING: one bag gives one bag.
pub fn select_alike<V>()
    ensures { SelectAlike V }
{}

/// The select list: one bag gives one bag.
pub fn project_alike<V>()
    ensures { ProjectAlike V }
{}

/// All combinations: one bag gives one bag.
pub fn cross_alike<V>()
    ensures { CrossAlike V }
{}

/// The inner join: one bag gives one bag.
pub fn join_node_alike<V>()
    ensures { (same : V → V → Bool) → IsIdentity same → JoinNodeAlike same }
{}

/// The left outer join: one bag gives one bag.
pub fn outer_node_alike<V>()
    ensures { (same : V → V → Bool) → IsIdentity same → OuterNodeAlike same }
{}

/// A column that is a function of the bag of partners: one bag gives one bag.
pub fn attach_node_alike<V>()
    ensures { (same : V → V → Bool) → IsIdentity same → AttachNodeAlike same }
{}

/// A mark: one bag gives one bag.
pub fn mark_node_alike<V>()
    ensures { (same : V → V → Bool) → IsIdentity same → MarkNodeAlike same }
{}

/// A scalar value: one bag gives one bag. Besides matching partners, `same` witnesses that the
/// values have an identity.
pub fn single_node_alike<V>()
    ensures { (same : V → V → Bool) → IsIdentity same → SingleNodeAlike same }
{}

/// GROUP BY, where the aggregates are functions of the bag: one bag gives one bag.
pub fn group_alike<V>()
    ensures { (same : V → V → Bool) → IsIdentity same → GroupAlike same }
{}

/// Aggregates without GROUP BY: one bag gives one bag.
pub fn total_alike<V>()
    ensures { TotalAlike V }
{}

/// DISTINCT: one bag gives one bag.
pub fn distinct_alike<V>()
    ensures { (same : V → V → Bool) → IsIdentity same → DistinctAlike same }
{}

/// A domain: one bag gives one bag.
pub fn domain_node_alike<V>()
    ensures { (same : V → V → Bool) → IsIdentity same → DomainNodeAlike same }
{}

/// A fill: one bag gives one bag.
pub fn fill_alike<V>()
    ensures { (same : V → V → Bool) → IsIdentity same → FillAlike same }
{}

/// A join by nested loops, whose right sides are one bag under each left row that is there: one bag
/// gives one bag.
pub fn join_loop_alike<V>()
    ensures { JoinLoopAlike V }
{}

/// A left outer join by nested loops, with such right sides: one bag gives one bag.
pub fn outer_loop_alike<V>()
    ensures { OuterLoopAlike V }
{}

/// A mark or a scalar value by nested loops, with such right sides: one bag gives one bag.
pub fn attach_loop_alike<V>()
    ensures { AttachLoopAlike V }
{}
