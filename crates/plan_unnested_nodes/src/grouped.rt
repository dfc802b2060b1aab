//! Groups under each row of a domain.
ghost use Rattle.std.specs.Prelude.{◌≡◌, ◌<◌, ◌++◌, length, IfOk, IsTrue};
ghost use Rattle.std.specs.List.{All as Every};
ghost use Rattle.expr_conditions.specs.Ranks.{columns_from};
ghost use Rattle.plan_unnested_nodes.specs.Lowerings.{IsGrouped, with_again};

use crate::lists::{column_list, first_columns};
use crate::put::put_group_by;
use expr_conditions::put_run;
use plan_algebra::{Aggregate, Builder, Node, NodeId, copy_aggregates};
use std::alloc::{AllocError, Global};

// Whether columns are below a limit.
fn are_below(columns: &[u32], limit: u32) -> bool
    ensures { IsTrue result → Every (λ c. c < limit) columns.now }
{
    for column in columns {
        if *column >= limit {
            return false;
        }
    }
    true
}

// The columns of groups by a domain's columns, and before their aggregates some of the domain's
// once more.
fn columns_again(
    alloc: Global,
    width: u32,
    by: &[u32],
    aggregates: usize,
) -> Result<Vec<u32>, AllocError>
    ensures { IfOk result (λ v. v.items ≡ with_again width by.now aggregates) }
{
    let more = u32::try_from(aggregates).map_err(|_| AllocError)?;
    let mut columns = Vec::new(alloc);
    put_run(&mut columns, 0, width)?;
    columns.extend_from_slice(by)?;
    put_run(&mut columns, width, more)?;
    Ok(columns)
}

/// The groups of a node's rows by a domain's columns and by others. Where the others are the
/// domain's too, the rows are grouped by each column once.
pub fn put_groups(
    alloc: Global,
    builder: &mut Builder,
    rows: NodeId,
    width: u32,
    by: &[u32],
    aggregates: &[Aggregate],
) -> Result<NodeId, AllocError>
    requires { rows < length builder.old.nodes }
    ensures { IfOk result
        (IsGrouped builder.old.nodes builder.new.nodes rows width by.now aggregates.now) }
{
    if !are_below(by, width) {
        let id = put_group_by(alloc, builder, rows, width, by, aggregates)?;
        return Ok(id);
    }
    let keys = first_columns(alloc, width)?;
    let computed = copy_aggregates(alloc, aggregates)?;
    let columns = columns_again(alloc, width, by, aggregates.len())?;
    let list = column_list(alloc, &columns)?;
    let groups = builder.put(Node::Group(rows, keys, computed))?;
    let id = builder.put(Node::Project(groups, list))?;
    Ok(id)
}
