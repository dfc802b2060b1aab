//! The node laws of unnesting, for a whole domain.

ghost use Rattle.std.specs.Prelude.{Bool};
ghost use Rattle.base_row_laws.specs.Bags.{IsIdentity};
ghost use Rattle.base_row_laws.specs.DomainLaws.{UnitRowIsDomain, DomainNodeIsDomain, SideIsDomain};
ghost use Rattle.base_row_laws.specs.DomainLaws.{LeftRowsMet, OneRowAnswers, RootAnswers};
ghost use Rattle.base_row_laws.specs.DomainLaws.{TotalWithoutFill, TotalAloneAnswers, ScanAnswers};
ghost use Rattle.base_row_laws.specs.DomainLaws.{SelectAnswers, ProjectAnswers, JoinAnswers};
ghost use Rattle.base_row_laws.specs.DomainLaws.{OuterAnswers, AttachAnswers, GroupAnswers, FillAnswers};
ghost use Rattle.base_row_laws.specs.DomainLaws.{TotalAnswers, LocalAnswers, DistinctAnswers};
ghost use Rattle.base_row_laws.specs.DomainLaws.{UnderMeets};

/// The one row of no columns is a domain, which a whole query is lowered over.
pub fn unit_row_is_domain<V>()
    ensures { (same : V → V → Bool) → IsIdentity same → UnitRowIsDomain same }
{}

/// The domain node of rows of which `pick` takes n values is a domain: no two of its rows are
/// identical.
pub fn domain_node_is_domain<V>()
    ensures { (same : V → V → Bool) → IsIdentity same → DomainNodeIsDomain same }
{}

/// A right side's domain is one: of no columns, the left's, or columns computed from the left rows.
pub fn side_is_domain<V>()
    ensures { (same : V → V → Bool) → IsIdentity same → SideIsDomain same }
{}

/// No left row is missed: what the right side meets under each row of the domain node, it meets
/// under what `pick` takes of each left row.
pub fn left_rows_met<V>()
    ensures { (same : V → V → Bool) → IsIdentity same → LeftRowsMet same }
{}

/// The one row of no columns over a domain: the domain's own rows.
pub fn one_row_answers<V>()
    ensures { (same : V → V → Bool) → IsIdentity same → OneRowAnswers same }
{}

/// The root of a plan: rows answer loops over the one row of no columns exactly where they are, as
/// a bag, what the loops give under it.
pub fn root_answers<V>()
    ensures { (same : V → V → Bool) → IsIdentity same → RootAnswers same }
{}

/// Over the one row of no columns aggregates without GROUP BY need no fill.
pub fn total_without_fill<V>()
    ensures { (same : V → V → Bool) → IsIdentity same → TotalWithoutFill same }
{}

/// So the one group of all rows answers them.
pub fn total_alone_answers<V>()
    ensures { (same : V → V → Bool) → IsIdentity same → TotalAloneAnswers same }
{}

/// A table over a domain: the domain's rows joined with the table's.
pub fn scan_answers<V>()
    ensures { (same : V → V → Bool) → IsIdentity same → ScanAnswers same }
{}

/// Selection over a domain.
pub fn select_answers<V>()
    ensures { (same : V → V → Bool) → IsIdentity same → SelectAnswers same }
{}

/// Projection over a domain.
pub fn project_answers<V>()
    ensures { (same : V → V → Bool) → IsIdentity same → ProjectAnswers same }
{}

/// The inner join over a domain, with a right side that is closed, that shares the domain, or that
/// has a domain of its own, as a lateral join has.
pub fn join_answers<V>()
    ensures { (same : V → V → Bool) → IsIdentity same → JoinAnswers same }
{}

/// The left outer join over a domain, with the same three kinds of right side.
pub fn outer_answers<V>()
    ensures { (same : V → V → Bool) → IsIdentity same → OuterAnswers same }
{}

/// Marks and scalar values over a domain, with the same three kinds of right side. Under each
/// domain row d a left row l gets one more column: `value` of d and l, and of the rows that the
/// right side has under them.
pub fn attach_answers<V>()
    ensures { (same : V → V → Bool) → IsIdentity same → AttachAnswers same }
{}

/// GROUP BY over a domain.
pub fn group_answers<V>()
    ensures { (same : V → V → Bool) → IsIdentity same → GroupAnswers same }
{}

/// The fill gives each domain row its groups, or where it has none the empty group.
pub fn fill_answers<V>()
    ensures { (same : V → V → Bool) → IsIdentity same → FillAnswers same }
{}

/// Aggregates without GROUP BY: the fill over groups by the domain's columns.
pub fn total_answers<V>()
    ensures { (same : V → V → Bool) → IsIdentity same → TotalAnswers same }
{}

/// A right side that has the domain's values in columns bs of its own, and asks in its WHERE that
/// they equal the domain's, needs no domain: its rows take their own values as domain columns, and
/// the equality becomes a condition on these alone.
pub fn local_answers<V>()
    ensures { (same : V → V → Bool) → IsIdentity same → LocalAnswers same }
{}

/// DISTINCT over a domain.
pub fn distinct_answers<V>()
    ensures { (same : V → V → Bool) → IsIdentity same → DistinctAnswers same }
{}

/// From each row of a domain to the whole domain.
pub fn under_meets<V>()
    ensures { (same : V → V → Bool) → IsIdentity same → UnderMeets same }
{}
