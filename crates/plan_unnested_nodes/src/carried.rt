//! Whether the tables of a FROM are read without the domain at first: one table, or several that
//! have columns of their own for all of a domain's, but not the first ones of them alone, and are
//! connected with one another. Whatever is said here, the rows are the same, so no clause speaks of
//! it.
use crate::domain::Origin;
use crate::footing::Footing;
use crate::origins::{Known, joined_kinds, known_kinds, unknown_kinds};
use crate::own_columns::{Sought, equal_column, noted_kind};
use expr_operators::Comparison;
use expr_scalar::{Expr, Kind};
use plan_algebra::{DepTree, Side, width};
use sqlite_items::Items;
use std::alloc::{AllocError, Global};

/// Whether a tree is the rows of one table that a condition or a select list reads, or its tables
/// have such columns and are connected, and the first input of its last join has not all of these
/// columns.
pub fn is_carried(alloc: Global, tree: &DepTree, footing: &Footing) -> Result<bool, AllocError> {
    let n = footing.width()?;
    if n == 0 {
        return Ok(false);
    }
    if is_of_table(tree) {
        return Ok(true);
    }
    let notes = footing.unchanged.as_slice();
    let Some(first) = first_input(tree) else {
        return Ok(false);
    };
    let is_later = !has_own(alloc, first, n, notes)?;
    let has_all = has_own(alloc, tree, n, notes)?;
    let connected = is_joined(tree, n)?;
    Ok(is_later && has_all && connected)
}

// Whether a tree is the selected rows of one table, or its select list. The conditions that read
// the table alone are then asked before the others, and the rows that they drop are no longer
// there.
fn is_of_table(tree: &DepTree) -> bool {
    match tree {
        DepTree::Select(t, _) => is_table(t.get()) || is_of_table(t.get()),
        DepTree::Project(t, _) => is_table(t.get()),
        _ => false,
    }
}

// Whether a tree is a table or a kept view.
fn is_table(tree: &DepTree) -> bool {
    matches!(tree, DepTree::Scan(_) | DepTree::Kept(_, _))
}

// The input whose rows come first in those of a part of FROM.
fn first_input(tree: &DepTree) -> Option<&DepTree> {
    match tree {
        DepTree::Select(t, _) => Some(t.get()),
        DepTree::Join(l, _, Side::Closed, _) => Some(l.get()),
        _ => None,
    }
}

// Whether two columns are said to be equal, one of which stands after the domain's n and before
// `at`, and the other from there on.
fn equates(e: &Expr, n: u32, at: u32) -> bool {
    match e {
        Expr::Compare(Comparison::Equal, a, b) => match (a.get(), b.get()) {
            (Expr::Column(i), Expr::Column(j)) => {
                let low = (*i).min(*j);
                let high = (*i).max(*j);
                n <= low && low < at && at <= high
            }
            _ => false,
        },
        _ => false,
    }
}

// Whether a condition, or one of its conjuncts, says so.
fn connects(on: &Expr, n: u32, at: u32) -> bool {
    match on {
        Expr::All(es) => {
            for e in es.as_slice() {
                if equates(e, n, at) {
                    return true;
                }
            }
            false
        }
        _ => equates(on, n, at),
    }
}

// Whether each table of a part of FROM is connected with those before it, so that its joins are no
// products.
fn is_joined(tree: &DepTree, n: u32) -> Result<bool, AllocError> {
    match tree {
        DepTree::Select(t, _) => {
            let joined = is_joined(t.get(), n)?;
            Ok(joined)
        }
        DepTree::Join(l, _, _, on) | DepTree::Outer(l, _, _, on) => {
            let before = width(l.get())?;
            let at = n.checked_add(before).ok_or(AllocError)?;
            let joined = is_joined(l.get(), n)?;
            Ok(joined && connects(on.get(), n, at))
        }
        _ => Ok(true),
    }
}

// Whether a part of FROM asks for each column of the domain that one of its own is equal to it,
// both of one kind.
fn has_own(alloc: Global, tree: &DepTree, n: u32, notes: &[Origin]) -> Result<bool, AllocError> {
    let kinds = tree_kinds(alloc, tree)?;
    let sought = Sought {
        kinds: kinds.as_slice(),
        width: n,
    };
    for k in 0..n {
        let Some(kind) = noted_kind(notes, k) else {
            return Ok(false);
        };
        if !is_asked(tree, &sought, k, &kind) {
            return Ok(false);
        }
    }
    Ok(true)
}

// Whether one of its conditions asks it for the domain's column k.
fn is_asked(tree: &DepTree, sought: &Sought, k: u32, kind: &Kind) -> bool {
    match tree {
        DepTree::Select(t, c) | DepTree::Join(t, _, Side::Closed, c) => {
            equal_column(c.get(), sought, k, kind).is_some() || is_asked(t.get(), sought, k, kind)
        }
        DepTree::Outer(l, _, Side::Closed, _) => is_asked(l.get(), sought, k, kind),
        _ => false,
    }
}

// The kinds of a tree's columns, as far as these come unchanged from a table.
fn tree_kinds(alloc: Global, tree: &DepTree) -> Result<Items<Option<Known>>, AllocError> {
    match tree {
        DepTree::Scan(table) => {
            let own = known_kinds(alloc, *table)?;
            Ok(own)
        }
        DepTree::Select(t, _) => {
            let own = tree_kinds(alloc, t.get())?;
            Ok(own)
        }
        DepTree::Join(l, r, _, _) | DepTree::Outer(l, r, _, _) => {
            let left = tree_kinds(alloc, l.get())?;
            let right = tree_kinds(alloc, r.get())?;
            let own = joined_kinds(alloc, left.as_slice(), right.as_slice())?;
            Ok(own)
        }
        _ => {
            let count = width(tree)?;
            let own = unknown_kinds(alloc, count as usize)?;
            Ok(own)
        }
    }
}
