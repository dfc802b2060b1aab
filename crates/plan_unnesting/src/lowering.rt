//! From dependent trees to flat nodes.
ghost use Rattle.std.specs.Prelude.{◌≡◌, ◌+◌, ◌<◌, ◌≤◌, ◌++◌, length, IfOk, OnOk};
ghost use Rattle.plan_algebra.specs.Trees.{tree_meaning, scans_of, domains_of};
ghost use Rattle.plan_algebra.specs.Plans.{plan_scans, plan_domains};
ghost use Rattle.plan_unnested_nodes.specs.Domains.{IsInPlan};
ghost use Rattle.plan_unnested_nodes.specs.Footings.{IsFooting};
ghost use Rattle.plan_unnested_nodes.specs.FromRows.{IsPart};
ghost use Rattle.plan_unnested_nodes.specs.Lowerings.{Unnests, Answered, KeepsNodes, Lowers};
ghost use Rattle.plan_unnested_nodes.specs.Lowerings.{LowersRight};

use plan_algebra::{Builder, DepTree, NodeId, Side, width};
use plan_unnested_nodes::{
    Domain, Footing, Part, is_carried, keeps_domain, own_footing, own_list, own_on, put_apart_join,
    put_apart_kept, put_apart_list, put_apart_outer, put_apart_select, put_apart_table,
    put_distinct, put_groups, put_join, put_kept, put_mark, put_outer, put_project, put_scan,
    put_select, put_selection, put_set, put_single, put_total, put_whole,
};
use sqlite_items::Boxed;
use std::alloc::{AllocError, Global};

/// Adds to a plan the nodes of a tree over a domain, and says which node has its rows: the last
/// one.
///
/// A dependent right side is lowered over a domain: the projection of its left side's rows to the
/// columns that it reads, identical rows once. The left side is lowered once, and read by the
/// domain and by the operator. Domain columns are matched by identity, so null meets null, and a
/// fault the same fault.
pub fn lower(
    alloc: Global,
    builder: &mut Builder,
    tree: &DepTree,
    domain: Domain,
) -> Result<NodeId, AllocError>
    requires { IsInPlan builder.old.nodes domain.rows }

    // Among the node's rows those that begin with a row of the domain are, as a bag, the rows of
    // the nested loops.
    ensures unnests { IfOk result (Unnests builder.old.nodes builder.new.nodes tree.now domain) }

    // Over the one row of no columns these are all its rows: those of a whole query.
    ensures whole { IfOk result (Answered builder.new.nodes tree.now domain) }

    // The plan only grows, and the node is its last.
    ensures grows { IfOk result (KeepsNodes builder.old.nodes builder.new.nodes) }

    // One scan for each table of the tree, in its order: what is read twice is lowered once.
    ensures scans { OnOk result
        (plan_scans builder.new.nodes ≡ plan_scans builder.old.nodes ++ scans_of tree.now) }

    // At most one domain for each right side that depends on columns of its left side: the shared
    // sides in it use the same one.
    ensures domains { OnOk result
        (plan_domains builder.new.nodes ≤ plan_domains builder.old.nodes + domains_of tree.now) }
{
    let mut footing = Footing::of(domain);
    let id = lowered(alloc, builder, tree, &mut footing)?;
    Ok(id)
}

// The same for each row of the domain by itself.
#[cycle(lower)]
fn lowered(
    alloc: Global,
    builder: &mut Builder,
    tree: &DepTree,
    footing: &mut Footing,
) -> Result<NodeId, AllocError>
    requires { IsFooting builder.old.nodes footing.old.rows }
    ensures { IfOk result
        (Lowers builder.old.nodes builder.new.nodes (tree_meaning tree.now)
        footing.old footing.new) }
{
    if !is_carried(alloc, tree, footing)? {
        let id = lowered_node(alloc, builder, tree, footing)?;
        return Ok(id);
    }
    let part = lowered_part(alloc, builder, tree, footing)?;
    match part {
        Part::Whole(id) => Ok(id),
        Part::Apart(part) => {
            let id = put_whole(alloc, builder, part, footing)?;
            Ok(id)
        }
    }
}

// A part of FROM, without the domain where it is tables joined.
#[cycle(lower)]
fn lowered_part(
    alloc: Global,
    builder: &mut Builder,
    tree: &DepTree,
    footing: &mut Footing,
) -> Result<Part, AllocError>
    requires { IsFooting builder.old.nodes footing.old.rows }
    ensures { IfOk result
        (IsPart builder.old.nodes builder.new.nodes (tree_meaning tree.now)
        footing.old footing.new) }
{
    match tree {
        DepTree::Scan(table) => {
            let part = put_apart_table(alloc, builder, *table)?;
            Ok(Part::Apart(part))
        }
        DepTree::Select(input, condition) => {
            let n = footing.width()?;
            let part = lowered_part(alloc, builder, input.get(), footing)?;
            match part {
                Part::Whole(rows) => {
                    let id = put_select(alloc, builder, rows, condition.get())?;
                    Ok(Part::Whole(id))
                }
                Part::Apart(part) => {
                    let part = put_apart_select(alloc, builder, n, part, condition.get())?;
                    Ok(Part::Apart(part))
                }
            }
        }
        DepTree::Join(left, right, side, on) => match side {
            Side::Closed => {
                let n = footing.width()?;
                let outer = lowered_part(alloc, builder, left.get(), footing)?;
                let mut none = Footing::one(alloc);
                let rows = lowered(alloc, builder, right.get(), &mut none)?;
                match outer {
                    Part::Whole(outer) => {
                        let id = put_join(alloc, builder, outer, rows, side, n, on.get())?;
                        Ok(Part::Whole(id))
                    }
                    Part::Apart(part) => {
                        let more = width(right.get())?;
                        let part = put_apart_join(alloc, builder, n, part, rows, more, on.get())?;
                        Ok(Part::Apart(part))
                    }
                }
            }
            _ => {
                let id = lowered_node(alloc, builder, tree, footing)?;
                Ok(Part::Whole(id))
            }
        },
        DepTree::Outer(_, _, _, _) => {
            let part = lowered_outer(alloc, builder, tree, footing)?;
            Ok(part)
        }
        DepTree::Project(_, _) => {
            let part = lowered_list(alloc, builder, tree, footing)?;
            Ok(part)
        }
        DepTree::Kept(number, plan) => {
            let part = put_apart_kept(alloc, builder, *number, plan)?;
            Ok(Part::Apart(part))
        }
        _ => {
            let id = lowered_node(alloc, builder, tree, footing)?;
            Ok(Part::Whole(id))
        }
    }
}

// A select list of columns of a table. Any other one is lowered as a whole.
#[cycle(lower)]
fn lowered_list(
    alloc: Global,
    builder: &mut Builder,
    tree: &DepTree,
    footing: &mut Footing,
) -> Result<Part, AllocError>
    requires { IsFooting builder.old.nodes footing.old.rows }
    ensures { IfOk result
        (IsPart builder.old.nodes builder.new.nodes (tree_meaning tree.now)
        footing.old footing.new) }
{
    if let DepTree::Project(input, es) = tree {
        if let DepTree::Scan(table) = input.get() {
            let n = footing.width()?;
            if let Some(own) = own_list(alloc, n, es.as_slice())? {
                let part = put_apart_list(alloc, builder, *table, own)?;
                return Ok(Part::Apart(part));
            }
        }
    }
    let id = lowered_node(alloc, builder, tree, footing)?;
    Ok(Part::Whole(id))
}

// A left outer join of such a part, where neither the right side nor the condition reads a domain.
#[cycle(lower)]
fn lowered_outer(
    alloc: Global,
    builder: &mut Builder,
    tree: &DepTree,
    footing: &mut Footing,
) -> Result<Part, AllocError>
    requires { IsFooting builder.old.nodes footing.old.rows }
    ensures { IfOk result
        (IsPart builder.old.nodes builder.new.nodes (tree_meaning tree.now)
        footing.old footing.new) }
{
    let DepTree::Outer(left, right, side, on) = tree else {
        let id = lowered_node(alloc, builder, tree, footing)?;
        return Ok(Part::Whole(id));
    };
    let found = own_on(alloc, footing, left.get(), right.get(), side, on.get())?;
    let Some(own) = found else {
        let id = lowered_node(alloc, builder, tree, footing)?;
        return Ok(Part::Whole(id));
    };
    let n = footing.width()?;
    let more = width(right.get())?;
    let outer = lowered_part(alloc, builder, left.get(), footing)?;
    let mut none = Footing::one(alloc);
    let rows = lowered(alloc, builder, right.get(), &mut none)?;
    match outer {
        Part::Whole(outer) => {
            let id = put_outer(alloc, builder, outer, rows, side, n, more, on.get())?;
            Ok(Part::Whole(id))
        }
        Part::Apart(part) => {
            let part = put_apart_outer(alloc, builder, n, part, rows, more, own)?;
            Ok(Part::Apart(part))
        }
    }
}

// A tree, from its inputs over their rows.
#[cycle(lower)]
fn lowered_node(
    alloc: Global,
    builder: &mut Builder,
    tree: &DepTree,
    footing: &mut Footing,
) -> Result<NodeId, AllocError>
    requires { IsFooting builder.old.nodes footing.old.rows }
    ensures { IfOk result
        (Lowers builder.old.nodes builder.new.nodes (tree_meaning tree.now)
        footing.old footing.new) }
{
    match tree {
        DepTree::Scan(table) => {
            let id = put_scan(alloc, builder, *table, footing)?;
            Ok(id)
        }
        DepTree::Select(input, condition) => {
            if let DepTree::Scan(table) = input.get() {
                let id = put_selection(alloc, builder, *table, condition.get(), footing)?;
                return Ok(id);
            }
            let rows = lowered(alloc, builder, input.get(), footing)?;
            let id = put_select(alloc, builder, rows, condition.get())?;
            Ok(id)
        }
        DepTree::Project(input, es) => {
            let width = footing.width()?;
            let rows = lowered(alloc, builder, input.get(), footing)?;
            let id = put_project(alloc, builder, rows, width, es.as_slice())?;
            Ok(id)
        }
        DepTree::Join(left, right, side, on) => {
            let width = footing.width()?;
            let outer = lowered(alloc, builder, left.get(), footing)?;
            let is_kept = keeps_domain(width, left, right, side);
            let rows = lowered_right(alloc, builder, outer, is_kept, right, side, footing)?;
            let id = put_join(alloc, builder, outer, rows, side, width, on.get())?;
            Ok(id)
        }
        DepTree::Outer(left, right, side, on) => {
            let own = footing.width()?;
            let outer = lowered(alloc, builder, left.get(), footing)?;
            let is_kept = keeps_domain(own, left, right, side);
            let rows = lowered_right(alloc, builder, outer, is_kept, right, side, footing)?;
            let nulls = width(right.get())?;
            let id = put_outer(alloc, builder, outer, rows, side, own, nulls, on.get())?;
            Ok(id)
        }
        DepTree::Mark(left, right, side, condition) => {
            let width = footing.width()?;
            let outer = lowered(alloc, builder, left.get(), footing)?;
            let is_kept = keeps_domain(width, left, right, side);
            let rows = lowered_right(alloc, builder, outer, is_kept, right, side, footing)?;
            let id = put_mark(alloc, builder, outer, rows, side, width, condition.get())?;
            Ok(id)
        }
        DepTree::Single(left, right, side, column) => {
            let width = footing.width()?;
            let outer = lowered(alloc, builder, left.get(), footing)?;
            let is_kept = keeps_domain(width, left, right, side);
            let rows = lowered_right(alloc, builder, outer, is_kept, right, side, footing)?;
            let id = put_single(alloc, builder, outer, rows, side, width, *column)?;
            Ok(id)
        }
        DepTree::Group(input, by, aggregates) => {
            let by = by.as_slice();
            if by.is_empty() {
                let domain = footing.settled(alloc, builder)?;
                let rows = lowered(alloc, builder, input.get(), footing)?;
                let id = put_total(alloc, builder, rows, aggregates.as_slice(), domain)?;
                return Ok(id);
            }
            let width = footing.width()?;
            let rows = lowered(alloc, builder, input.get(), footing)?;
            let id = put_groups(alloc, builder, rows, width, by, aggregates.as_slice())?;
            Ok(id)
        }
        DepTree::Distinct(input) => {
            let rows = lowered(alloc, builder, input.get(), footing)?;
            let id = put_distinct(builder, rows)?;
            Ok(id)
        }
        // Both sides are over the same rows: the domain is pushed into both.
        DepTree::Set(left, right, operation) => {
            let outer = lowered(alloc, builder, left.get(), footing)?;
            let own = width(left.get())?;
            let other = width(right.get())?;
            if own != other {
                return Ok(outer);
            }
            let rows = lowered(alloc, builder, right.get(), footing)?;
            let id = put_set(builder, outer, rows, *operation)?;
            Ok(id)
        }
        DepTree::Kept(number, plan) => {
            let id = put_kept(alloc, builder, *number, plan, footing)?;
            Ok(id)
        }
    }
}

// A right side, over what it reads of its left side, which is the node `outer` over the footing.
// `is_kept` says whether its domain is kept where other columns could stand for its own.
#[cycle(lower)]
fn lowered_right(
    alloc: Global,
    builder: &mut Builder,
    outer: NodeId,
    is_kept: bool,
    right: &Boxed<DepTree>,
    side: &Side,
    footing: &mut Footing,
) -> Result<NodeId, AllocError>
    requires footing { IsFooting builder.old.nodes footing.old.rows }
    requires outer { outer < length builder.old.nodes }
    ensures { IfOk result
        (LowersRight builder.old.nodes builder.new.nodes (tree_meaning right.now) side.now
        footing.old footing.new outer) }
{
    match side {
        Side::Shared => {
            let id = lowered(alloc, builder, right.get(), footing)?;
            Ok(id)
        }
        Side::Closed => {
            let mut none = Footing::one(alloc);
            let id = lowered(alloc, builder, right.get(), &mut none)?;
            Ok(id)
        }
        Side::Dependent(columns) => {
            let mut own = own_footing(alloc, builder, outer, columns.as_slice(), is_kept)?;
            let id = lowered(alloc, builder, right.get(), &mut own)?;
            Ok(id)
        }
    }
}
