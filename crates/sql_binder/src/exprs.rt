//! Expressions that hold others. The function that binds an expression is a value here, so that
//! each rule is proved alone.
ghost use Rattle.sql_ast.specs.declared.tree.Block.TheOpen.{Expr-F};
ghost use Rattle.sql_binder.specs.Expressions as spec;
ghost use Rattle.sql_binder.specs.Binding.{meaning};
ghost use Rattle.sql_binder_steps.specs.Names.{sight_of};
ghost use Rattle.sql_binder.specs.Nests.{BindsExpr};
ghost use Rattle.sql_binder_steps.specs.Parts.{among_rows};
ghost use Rattle.sql_binder_steps.specs.Steps.{Binds, alone};

use base_text::Text;
use expr_aggregates::AggregateFunction;
use sql_ast::{Aggregate, Comparison, Expr, Span};
use sql_binder_steps::BindFault;
use sql_binder_steps::collected::{Collected, Part, Typed};
use sql_binder_steps::scope::{Level, Site};
use sql_binder_steps::steps::{aggregated, before, function_of};
use sql_binder_steps::values::{
    between, compared, denied, extracted, liked, negative, null_test, substring,
};
use sql_bound_query::BoundExpr;
use sqlite_items::{Boxed, Items};
use std::alloc::Global;

/// Binds what holds expressions. `expr` binds an expression.
#[derive(Clone, Copy)]
pub(crate) struct ExprBinder<E> {
    pub(crate) alloc: Global,
    pub(crate) expr: E,
}

impl<E: Fn(Global, &Site<'_>, &mut Collected, &Expr) -> Result<Typed, BindFault>> ExprBinder<E> {
    /// An expression.
    pub(crate) fn bind(
        &self,
        site: &Site<'_>,
        state: &mut Collected,
        e: &Expr,
    ) -> Result<Typed, BindFault>
        requires { BindsExpr (E.pre self.now.expr) (E.post self.now.expr) e.now }
        ensures { Binds ((meaning e.now).binds (sight_of site.now) state.old) result state.new }
    {
        (self.expr)(self.alloc, site, state, e)
    }

    /// An operand.
    pub(crate) fn operand(
        &self,
        site: &Site<'_>,
        state: &mut Collected,
        e: &Boxed<Expr>,
    ) -> Result<Typed, BindFault>
        requires { BindsExpr (E.pre self.now.expr) (E.post self.now.expr) e.now }
        ensures { Binds ((meaning e.now).binds (sight_of site.now) state.old) result state.new }
    {
        (self.expr)(self.alloc, site, state, e.get())
    }

    /// An expression with inputs of its own.
    #[tactic(auto, unfolding(sql_binder_steps::specs::Steps::alone))]
    pub(crate) fn part(
        &self,
        site: &Site<'_>,
        state: &mut Collected,
        e: &Expr,
    ) -> Result<Part, BindFault>
        requires { BindsExpr (E.pre self.now.expr) (E.post self.now.expr) e.now }
        ensures { Binds (alone ((meaning e.now).binds (sight_of site.now)) state.old)
            result state.new }
    {
        let outer = state.swap_inputs(Items::new(self.alloc));
        let t = self.bind(site, state, e)?;
        let inputs = state.swap_inputs(outer);
        Ok(Part {
            expr: BoundExpr {
                inputs,
                expr: t.value,
            },
            kind: t.kind,
        })
    }

    /// The argument of an aggregate, over the rows of the groups.
    #[tactic(auto, unfolding(sql_binder_steps::specs::Parts::among_rows))]
    fn argument(
        &self,
        site: &Site<'_>,
        state: &mut Collected,
        e: &Boxed<Expr>,
    ) -> Result<Part, BindFault>
        requires { BindsExpr (E.pre self.now.expr) (E.post self.now.expr) e.now }
        ensures { Binds (alone ((meaning e.now).binds (among_rows (sight_of site.now))) state.old)
            result state.new }
    {
        match site.levels {
            [] => {
                let rows = Site {
                    views: site.views,
                    levels: site.levels,
                    hidden: site.hidden,
                    takes_subqueries: false,
                };
                self.part(&rows, state, e.get())
            }
            [level, outer @ ..] => {
                let none = None;
                let level = Level {
                    columns: level.columns,
                    keys: &none,
                };
                let levels = before(self.alloc, level, outer)?;
                let rows = Site {
                    views: site.views,
                    levels: levels.as_slice(),
                    hidden: site.hidden,
                    takes_subqueries: false,
                };
                self.part(&rows, state, e.get())
            }
        }
    }

    /// `- a`
    pub(crate) fn negative(
        &self,
        site: &Site<'_>,
        state: &mut Collected,
        a: &Boxed<Expr>,
    ) -> Result<Typed, BindFault>
        requires { BindsExpr (E.pre self.now.expr) (E.post self.now.expr) a.now }
        ensures { Binds (spec.binds_step (sight_of site.now) (Expr-F.Negative (meaning a.now))
            state.old) result state.new }
    {
        let x = self.operand(site, state, a)?;
        let t = negative(self.alloc, x)?;
        Ok(t)
    }

    /// `a = b` and the other comparisons.
    pub(crate) fn compare(
        &self,
        site: &Site<'_>,
        state: &mut Collected,
        c: Comparison,
        a: &Boxed<Expr>,
        b: &Boxed<Expr>,
    ) -> Result<Typed, BindFault>
        requires left { BindsExpr (E.pre self.now.expr) (E.post self.now.expr) a.now }
        requires right { BindsExpr (E.pre self.now.expr) (E.post self.now.expr) b.now }
        ensures { Binds (spec.binds_step (sight_of site.now)
            (Expr-F.Compare c (meaning a.now) (meaning b.now)) state.old) result state.new }
    {
        let x = self.operand(site, state, a)?;
        let y = self.operand(site, state, b)?;
        let t = compared(self.alloc, c, x, y)?;
        Ok(t)
    }

    /// `a is null`
    pub(crate) fn null_test(
        &self,
        site: &Site<'_>,
        state: &mut Collected,
        a: &Boxed<Expr>,
    ) -> Result<Typed, BindFault>
        requires { BindsExpr (E.pre self.now.expr) (E.post self.now.expr) a.now }
        ensures { Binds (spec.binds_step (sight_of site.now) (Expr-F.IsNull (meaning a.now))
            state.old) result state.new }
    {
        let x = self.operand(site, state, a)?;
        let t = null_test(self.alloc, x)?;
        Ok(t)
    }

    /// `a between low and high`
    pub(crate) fn between(
        &self,
        site: &Site<'_>,
        state: &mut Collected,
        a: &Boxed<Expr>,
        low: &Boxed<Expr>,
        high: &Boxed<Expr>,
    ) -> Result<Typed, BindFault>
        requires value { BindsExpr (E.pre self.now.expr) (E.post self.now.expr) a.now }
        requires low { BindsExpr (E.pre self.now.expr) (E.post self.now.expr) low.now }
        requires high { BindsExpr (E.pre self.now.expr) (E.post self.now.expr) high.now }
        ensures { Binds (spec.binds_step (sight_of site.now)
            (Expr-F.Between (meaning a.now) (meaning low.now) (meaning high.now)) state.old)
            result state.new }
    {
        let x = self.operand(site, state, a)?;
        let y = self.operand(site, state, low)?;
        let z = self.operand(site, state, high)?;
        let t = between(self.alloc, x, y, z)?;
        Ok(t)
    }

    /// `a like pattern`
    pub(crate) fn like(
        &self,
        site: &Site<'_>,
        state: &mut Collected,
        a: &Boxed<Expr>,
        pattern: &Text,
    ) -> Result<Typed, BindFault>
        requires { BindsExpr (E.pre self.now.expr) (E.post self.now.expr) a.now }
        ensures { Binds (spec.binds_step (sight_of site.now)
            (Expr-F.Like (meaning a.now) pattern.now) state.old) result state.new }
    {
        let x = self.operand(site, state, a)?;
        let t = liked(self.alloc, x, pattern)?;
        Ok(t)
    }

    /// `not a`
    pub(crate) fn not(
        &self,
        site: &Site<'_>,
        state: &mut Collected,
        a: &Boxed<Expr>,
    ) -> Result<Typed, BindFault>
        requires { BindsExpr (E.pre self.now.expr) (E.post self.now.expr) a.now }
        ensures { Binds (spec.binds_step (sight_of site.now) (Expr-F.Not (meaning a.now)) state.old)
            result state.new }
    {
        let x = self.operand(site, state, a)?;
        let t = denied(self.alloc, x)?;
        Ok(t)
    }

    /// A part of a date.
    pub(crate) fn extract(
        &self,
        site: &Site<'_>,
        state: &mut Collected,
        s: Span,
        a: &Boxed<Expr>,
    ) -> Result<Typed, BindFault>
        requires { BindsExpr (E.pre self.now.expr) (E.post self.now.expr) a.now }
        ensures { Binds (spec.binds_step (sight_of site.now) (Expr-F.Extract s (meaning a.now))
            state.old) result state.new }
    {
        let x = self.operand(site, state, a)?;
        let t = extracted(self.alloc, s, x)?;
        Ok(t)
    }

    /// A part of a text.
    pub(crate) fn substring(
        &self,
        site: &Site<'_>,
        state: &mut Collected,
        a: &Boxed<Expr>,
        from: u32,
        count: u32,
    ) -> Result<Typed, BindFault>
        requires { BindsExpr (E.pre self.now.expr) (E.post self.now.expr) a.now }
        ensures { Binds (spec.binds_step (sight_of site.now)
            (Expr-F.Substring (meaning a.now) from count) state.old) result state.new }
    {
        let x = self.operand(site, state, a)?;
        let t = substring(self.alloc, x, from, count)?;
        Ok(t)
    }

    /// `count(a)`
    pub(crate) fn count(
        &self,
        site: &Site<'_>,
        state: &mut Collected,
        a: &Boxed<Expr>,
    ) -> Result<Typed, BindFault>
        requires { BindsExpr (E.pre self.now.expr) (E.post self.now.expr) a.now }
        ensures { Binds (spec.binds_step (sight_of site.now) (Expr-F.Count (meaning a.now))
            state.old) result state.new }
    {
        let argument = self.argument(site, state, a)?;
        let t = aggregated(self.alloc, site, state, AggregateFunction::Count, argument)?;
        Ok(t)
    }

    /// `count(distinct a)`
    pub(crate) fn count_distinct(
        &self,
        site: &Site<'_>,
        state: &mut Collected,
        a: &Boxed<Expr>,
    ) -> Result<Typed, BindFault>
        requires { BindsExpr (E.pre self.now.expr) (E.post self.now.expr) a.now }
        ensures { Binds (spec.binds_step (sight_of site.now) (Expr-F.CountDistinct (meaning a.now))
            state.old) result state.new }
    {
        let argument = self.argument(site, state, a)?;
        let t = aggregated(
            self.alloc,
            site,
            state,
            AggregateFunction::CountDistinct,
            argument,
        )?;
        Ok(t)
    }

    /// A sum, an average or an extreme.
    pub(crate) fn aggregate(
        &self,
        site: &Site<'_>,
        state: &mut Collected,
        f: Aggregate,
        a: &Boxed<Expr>,
    ) -> Result<Typed, BindFault>
        requires { BindsExpr (E.pre self.now.expr) (E.post self.now.expr) a.now }
        ensures { Binds (spec.binds_step (sight_of site.now) (Expr-F.Aggregate f (meaning a.now))
            state.old) result state.new }
    {
        let argument = self.argument(site, state, a)?;
        let t = aggregated(self.alloc, site, state, function_of(f), argument)?;
        Ok(t)
    }
}
