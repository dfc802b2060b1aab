//! A query from its bound form to its flat plan.
ghost use Rattle.std.specs.Prelude.{Err, IfErr, List};
ghost use Rattle.expr_scalar.specs.declared.kind.Kind.{Kind};
ghost use Rattle.sql_bound_query.specs.Typing.{IsWellTyped};
ghost use Rattle.sql_binder.specs.Binding.{bound_query};
ghost use Rattle.sql_binder_steps.specs.Steps.{Gives};
ghost use Rattle.app_show_plan.specs.Shown.{PlansQuery};

use crate::figures::{NodeFigures, node_figures};
use app_plan_text::{PlanLine, query_lines, tree_lines};
use plan_algebra::{DepTree, FlatPlan, Node, Tables};
use plan_computed_keys::keyed;
use plan_dependent_tree::depend;
use plan_join_order::arrange;
use plan_planner::{SessionViews, bind_query, plan};
use plan_tree_moves::{pruned, sunk};
use sql_ast::Query;
use sql_binder_steps::BindFault;
use sql_bound_query::BoundQuery;
use sqlite_items::{Boxed, Items};
use std::alloc::{AllocError, Global};
use std::thread::Threads;
use std::time::Clock;

/// A form of a query before its flat plan, as lines.
pub struct FormLines {
    /// Its title.
    pub title: &'static str,
    /// Its lines.
    pub lines: Vec<PlanLine>,
}

// By hand, as that of `QueryPlan`.
impl Drop for FormLines {
    #[inline]
    fn drop(self) {
        let FormLines { title: _, lines } = self;
        drop(lines);
    }
}

/// A query's forms and its flat plan.
pub struct QueryPlan {
    /// The forms before the flat plan, in their order.
    pub forms: Vec<FormLines>,
    /// The flat plan.
    pub plan: FlatPlan,
    /// What each node gives; nothing where there are no tables.
    pub figures: Vec<NodeFigures>,
}

// By hand, so that each place that drops one has a call in its proof, and not the drops of all
// fields.
impl Drop for QueryPlan {
    #[inline]
    fn drop(self) {
        let QueryPlan {
            forms,
            plan,
            figures,
        } = self;
        drop(forms);
        drop(plan);
        drop(figures);
    }
}

/// Appends a form whose lines were made.
fn put_form(
    forms: &mut Vec<FormLines>,
    title: &'static str,
    lines: Result<Vec<PlanLine>, AllocError>,
) -> Result<(), AllocError> {
    let lines = lines?;
    forms.push(FormLines { title, lines })?;
    Ok(())
}

/// Appends a tree that was made, and gives it back.
fn put_tree(
    alloc: Global,
    forms: &mut Vec<FormLines>,
    title: &'static str,
    made: Result<Boxed<DepTree>, AllocError>,
) -> Result<Boxed<DepTree>, AllocError> {
    let tree = made?;
    put_form(forms, title, tree_lines(alloc, tree.get()))?;
    Ok(tree)
}

/// Appends what becomes of a dependent tree. With its conditions moved down it is pruned, and with
/// its joins arranged it gets columns for the values that its equalities compute.
fn put_later_trees(
    alloc: Global,
    forms: &mut Vec<FormLines>,
    tree: &DepTree,
) -> Result<(), AllocError> {
    let lower = sunk(alloc, 0, tree, Items::new(alloc));
    let lower = put_tree(alloc, forms, "tree with conditions moved down", lower)?;
    let narrow = pruned(alloc, 0, lower.get());
    let _narrow = put_tree(
        alloc,
        forms,
        "tree without columns that nobody reads",
        narrow,
    )?;
    let arranged = arrange(alloc, 0, tree);
    let arranged = put_tree(alloc, forms, "tree with joins arranged", arranged)?;
    let indexed = keyed(alloc, 0, arranged.get());
    let _indexed = put_tree(alloc, forms, "tree with columns for computed keys", indexed)?;
    Ok(())
}

/// A bound query's forms, by the calls with which its flat plan is made.
fn bound_forms(alloc: Global, query: &BoundQuery) -> Result<Vec<FormLines>, AllocError>
    requires { (kinds : List Kind) × IsWellTyped query.now.block kinds }
{
    let mut forms = Vec::new(alloc);
    put_form(&mut forms, "bound query", query_lines(alloc, query))?;
    let tree = put_tree(alloc, &mut forms, "dependent tree", depend(alloc, query))?;
    put_later_trees(alloc, &mut forms, tree.get())?;
    Ok(forms)
}

/// The forms of a query over these views.
fn query_forms(
    alloc: Global,
    query: &Query,
    views: &SessionViews,
) -> Result<Vec<FormLines>, BindFault>
    ensures { IfErr result (λ why. Gives (bound_query query.now views.now) (Err why)) }
{
    let bound = bind_query(alloc, query, views)?;
    let forms = bound_forms(alloc, &bound)?;
    Ok(forms)
}

/// What each node of a query's plan gives over tables. The plan is made for that once more, since
/// it is taken apart node by node.
fn figures_of_nodes<R: Threads + Sync + Clock, T: Tables>(
    rt: &R,
    alloc: Global,
    query: &Query,
    views: &SessionViews,
    nodes: &[Node],
    tables: Option<&T>,
) -> Result<Vec<NodeFigures>, BindFault>
    ensures { IfErr result (λ why. Gives (bound_query query.now views.now) (Err why)) }
{
    match tables {
        Some(tables) => {
            let plan = plan(alloc, query, views)?;
            let figures = node_figures(rt, alloc, nodes, plan, tables)?;
            Ok(figures)
        }
        None => Ok(Vec::new(alloc)),
    }
}

/// A query's flat plan over these views, and what its nodes give, beside its forms.
fn with_plan<R: Threads + Sync + Clock, T: Tables>(
    rt: &R,
    alloc: Global,
    query: &Query,
    views: &SessionViews,
    tables: Option<&T>,
    forms: Vec<FormLines>,
) -> Result<QueryPlan, BindFault>
    ensures { PlansQuery (bound_query query.now views.now) result }
{
    let plan = plan(alloc, query, views)?;
    let figures = figures_of_nodes(rt, alloc, query, views, plan.nodes.as_slice(), tables)?;
    Ok(QueryPlan {
        forms,
        plan,
        figures,
    })
}

/// A query's forms and its flat plan over these views, by the call with which a session plans it:
/// refused exactly as binding is.
pub fn query_plan<R: Threads + Sync + Clock, T: Tables>(
    rt: &R,
    alloc: Global,
    query: &Query,
    views: &SessionViews,
    tables: Option<&T>,
) -> Result<QueryPlan, BindFault>
    ensures { PlansQuery (bound_query query.now views.now) result }
{
    let forms = query_forms(alloc, query, views)?;
    with_plan(rt, alloc, query, views, tables, forms)
}
