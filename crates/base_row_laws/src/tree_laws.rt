//! The theorem on unnesting.

ghost use Rattle.std.specs.Prelude.{Bool};
ghost use Rattle.base_row_laws.specs.Bags.{IsIdentity};
ghost use Rattle.base_row_laws.specs.TreeLaws.{Unnesting, NodeRowsBegin, UnnestingOfNode};
ghost use Rattle.base_row_laws.specs.TreeLaws.{UnnestingRowByRow, UnnestingOfQuery};

/// Let T be any dependent tree, of any depth, and ds a domain of n columns, which hold what T uses
/// freely.
/// Among the rows of the node that T is lowered to over ds, those whose domain columns are
/// identical to a row of ds are, as a bag, under(ds, T): each row of ds before each row that T
/// gives under it by nested loops, at that row's standing.
/// This holds with nulls and faults in domain columns, for domain rows without input, and for an
/// empty ds.
/// Rows with other domain columns are left out of this. `node_rows` has none, as the next law says;
/// that they do no harm is said by the laws for each kind of node, which are about any rows that
/// answer its sides, as those of a right side that needs no domain.
pub fn unnesting<V>()
    ensures { (same : V → V → Bool) → IsIdentity same → Unnesting same }
{}

/// Each row of the node that a tree is lowered to begins with a row of the domain.
pub fn node_rows_begin<V>()
    ensures { (same : V → V → Bool) → IsIdentity same → NodeRowsBegin same }
{}

/// So the rows of the node that a tree is lowered to over a domain are, all of them, as a bag, each
/// row of the domain before each row that the tree gives under it by nested loops.
pub fn unnesting_of_node<V>()
    ensures { (same : V → V → Bool) → IsIdentity same → UnnestingOfNode same }
{}

/// Unnesting for each row of the domain by itself.
pub fn unnesting_row_by_row<V>()
    ensures { (same : V → V → Bool) → IsIdentity same → UnnestingRowByRow same }
{}

/// A tree that uses nothing freely, as that of a whole query:
/// its node over the one row of no columns has, as a bag, its rows by nested loops.
pub fn unnesting_of_query<V>()
    ensures { (same : V → V → Bool) → IsIdentity same → UnnestingOfQuery same }
{}
