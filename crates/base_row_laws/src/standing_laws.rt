//! Every operator leaves rows at True or at a fault, where those it takes stand so.

ghost use Rattle.std.specs.Prelude.{Bool};
ghost use Rattle.base_row_laws.specs.Bags.{IsIdentity};
ghost use Rattle.base_row_laws.specs.StandingLaws.{SelectStands, ProjectStands, CrossStands, JoinStands};
ghost use Rattle.base_row_laws.specs.StandingLaws.{OuterStands, AttachStands, GroupStands, TotalStands};
ghost use Rattle.base_row_laws.specs.StandingLaws.{DistinctStands, InnerMatchedStands};
ghost use Rattle.base_row_laws.specs.StandingLaws.{OuterMatchedStands, AttachMatchedStands};
ghost use Rattle.base_row_laws.specs.StandingLaws.{DomainNodeStands, FillStands, TreeStands, NodeStands};
ghost use Rattle.base_row_laws.specs.StandingLaws.{SelectTrue, JoinTrue};

/// WHERE and HAVING give rows at True or at a fault, of such rows.
pub fn select_stands<V>()
    ensures { SelectStands V }
{}

/// The select list gives rows at True or at a fault, of such rows.
pub fn project_stands<V>()
    ensures { ProjectStands V }
{}

/// All combinations of rows at True or at a fault stand so too.
pub fn cross_stands<V>()
    ensures { CrossStands V }
{}

/// The inner join gives rows at True or at a fault, of such left rows, whatever its right rows
/// stand at: the lesser counts, and what is at most Unknown is dropped. This holds also where the
/// right side is taken anew under each left row.
pub fn join_stands<V>()
    ensures { JoinStands V }
{}

/// The left outer join likewise gives rows at True or at a fault, of such left rows.
pub fn outer_stands<V>()
    ensures { OuterStands V }
{}

/// With marks and scalar values left rows at True or at a fault stay so.
pub fn attach_stands<V>()
    ensures { AttachStands V }
{}

/// GROUP BY gives groups at True or at a fault, of such rows.
pub fn group_stands<V>()
    ensures { (same : V → V → Bool) → GroupStands same }
{}

/// Aggregates without GROUP BY give one group at True or at a fault, of such rows.
pub fn total_stands<V>()
    ensures { TotalStands V }
{}

/// DISTINCT gives rows at True or at a fault, of such rows.
pub fn distinct_stands<V>()
    ensures { (same : V → V → Bool) → IsIdentity same → DistinctStands same }
{}

/// The inner join by matched columns gives rows at True or at a fault, of such left rows.
pub fn inner_matched_stands<V>()
    ensures { (same : V → V → Bool) → InnerMatchedStands same }
{}

/// The left outer join by matched columns gives rows at True or at a fault, of such left rows.
pub fn outer_matched_stands<V>()
    ensures { (same : V → V → Bool) → OuterMatchedStands same }
{}

/// With marks and scalar values by matched columns left rows at True or at a fault stay so.
pub fn attach_matched_stands<V>()
    ensures { (same : V → V → Bool) → AttachMatchedStands same }
{}

/// A domain's rows stand at True.
pub fn domain_node_stands<V>()
    ensures { (same : V → V → Bool) → DomainNodeStands same }
{}

/// A fill of groups at True or at a fault gives such rows.
pub fn fill_stands<V>()
    ensures { (same : V → V → Bool) → FillStands same }
{}

/// The rows of every tree under every domain row, by nested loops, stand at True or at a fault.
pub fn tree_stands<V>()
    ensures { (same : V → V → Bool) → IsIdentity same → TreeStands same }
{}

/// The rows of the node that a tree is lowered to stand at True or at a fault, over a domain whose
/// rows do.
pub fn node_stands<V>()
    ensures { (same : V → V → Bool) → IsIdentity same → NodeStands same }
{}

/// WHERE True leaves rows at True or at a fault as they are.
pub fn select_true<V>()
    ensures { SelectTrue V }
{}

/// JOIN ON True gives all combinations of rows at True or at a fault.
pub fn join_true<V>()
    ensures { JoinTrue V }
{}
