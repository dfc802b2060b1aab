//! Whether a domain is kept where other columns could stand for its own. The rows are the same
//! either way, so no clause speaks of it.
use expr_scalar::{Comparison, Expr};
use plan_algebra::{DepTree, Side};
use plan_estimates::have_few;
use sqlite_items::Boxed;

/// Whether the domain of a right side is kept, whose left side is over a domain row of n columns:
/// where it has the groups of one table and a condition selects the left side's rows, or where it
/// joins tables of which the first is connected with the domain and the left side's rows are few.
/// That table's join with the domain then leaves few rows to group or to join.
pub fn keeps_domain(n: u32, left: &Boxed<DepTree>, right: &Boxed<DepTree>, side: &Side) -> bool {
    let Side::Dependent(columns) = side else {
        return false;
    };
    let columns = columns.as_slice();
    if begins_beside(right.get(), columns.len()) {
        return have_few(n, left.get(), columns);
    }
    is_selected(left.get()) && has_groups_of_table(right.get())
}

// Whether a tree is the groups of one table's rows, under select lists and selections at most.
fn has_groups_of_table(tree: &DepTree) -> bool {
    match tree {
        DepTree::Project(t, _) | DepTree::Select(t, _) => has_groups_of_table(t.get()),
        DepTree::Group(t, _, _) => is_of_table(t.get()),
        _ => false,
    }
}

// Whether a tree is one table's rows, under select lists and selections at most.
fn is_of_table(tree: &DepTree) -> bool {
    match tree {
        DepTree::Scan(_) => true,
        DepTree::Project(t, _) | DepTree::Select(t, _) => is_of_table(t.get()),
        _ => false,
    }
}

// Whether a tree reads tables that are joined, the first of which is connected with a domain of n
// columns.
fn begins_beside(tree: &DepTree, n: usize) -> bool {
    match tree {
        DepTree::Project(t, _) | DepTree::Select(t, _) | DepTree::Group(t, _, _) => {
            begins_beside(t.get(), n)
        }
        DepTree::Join(t, _, Side::Closed, _) => {
            is_beside(t.get(), n) || begins_beside(t.get(), n)
        }
        _ => false,
    }
}

// Whether a tree is one table's rows under a condition that connects them with a domain.
fn is_beside(tree: &DepTree, n: usize) -> bool {
    match tree {
        DepTree::Select(t, c) => is_of_table(t.get()) && connects(c.get(), n),
        _ => false,
    }
}

// Whether a condition, or one of its conjuncts, is the equality of a column of a domain with one
// after these.
fn connects(condition: &Expr, n: usize) -> bool {
    match condition {
        Expr::All(es) => {
            for e in es.as_slice() {
                if connects(e, n) {
                    return true;
                }
            }
            false
        }
        Expr::Compare(Comparison::Equal, a, b) => match (a.get(), b.get()) {
            (Expr::Column(i), Expr::Column(j)) => ((*i as usize) < n) != ((*j as usize) < n),
            _ => false,
        },
        _ => false,
    }
}

// Whether a condition selects rows of a tree.
fn is_selected(tree: &DepTree) -> bool {
    match tree {
        DepTree::Select(t, c) => selects(c.get()) || is_selected(t.get()),
        DepTree::Join(l, r, _, _) => is_selected(l.get()) || is_selected(r.get()),
        DepTree::Project(t, _)
        | DepTree::Outer(t, _, _, _)
        | DepTree::Mark(t, _, _, _)
        | DepTree::Single(t, _, _, _) => is_selected(t.get()),
        _ => false,
    }
}

// Whether a condition is more than equalities of columns, which connect tables.
fn selects(condition: &Expr) -> bool {
    match condition {
        Expr::All(es) => {
            for e in es.as_slice() {
                if selects(e) {
                    return true;
                }
            }
            false
        }
        Expr::Compare(_, a, b) => {
            !matches!((a.get(), b.get()), (Expr::Column(_), Expr::Column(_)))
        }
        _ => true,
    }
}
