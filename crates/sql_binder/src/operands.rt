//! Lists of operands: AND and OR, IN lists, chains of operations, and CASE.
ghost use Rattle.std.specs.Prelude.{map};
ghost use Rattle.base_row_laws.specs.Bags.{Each};
ghost use Rattle.sql_ast.specs.declared.tree.Block.TheOpen.{Expr-F};
ghost use Rattle.sql_binder.specs.Operands as operands;
ghost use Rattle.sql_binder.specs.Expressions as exprs;
ghost use Rattle.sql_binder.specs.Binding.{meaning, term_meaning, factor_meaning, arm_meaning};
ghost use Rattle.sql_binder_steps.specs.Names.{sight_of};
ghost use Rattle.sql_binder.specs.Nests.{BindsExpr, BindsExprs, BindsTerm, BindsFactor, BindsArm};
ghost use Rattle.sql_binder_steps.specs.Steps.{Binds};

use crate::exprs::ExprBinder;
use crate::syntax::interval_of;
use sql_ast::{Arm, Expr, Factor, Term};
use sql_binder_steps::BindFault;
use sql_binder_steps::chain::{adding_of, begun, ended, multiplying_of, operated, shifted};
use sql_binder_steps::collected::{Chain, Collected, Conditions, Operands, Typed};
use sql_binder_steps::scope::Site;
use sql_binder_steps::values::{
    all_of, any_of, case_else_of, case_of, first_condition, in_list, next_condition, no_operands,
    with_operand,
};
use sqlite_items::Boxed;
use std::alloc::Global;

impl<E: Fn(Global, &Site<'_>, &mut Collected, &Expr) -> Result<Typed, BindFault>> ExprBinder<E> {
    /// The operands of AND or OR after the first.
    #[tactic(auto, unfolding(crate::specs::Operands::conditions))]
    fn conditions(
        &self,
        site: &Site<'_>,
        state: &mut Collected,
        first: Typed,
        rest: &[Expr],
    ) -> Result<Conditions, BindFault>
        requires { BindsExprs (E.pre self.now.expr) (E.post self.now.expr) rest.now }
        ensures { Binds (operands.conditions (sight_of site.now) first (map meaning rest.now)
            state.old) result state.new }
    {
        let mut done = first_condition(self.alloc, first)?;
        let mut left = rest;
        'operands: while let [e, others @ ..] = left {
            let a = self.bind(site, state, e)?;
            done = next_condition(done, a)?;
            left = others;
        }
        Ok(done)
    }

    /// `a and b`
    pub(crate) fn and(
        &self,
        site: &Site<'_>,
        state: &mut Collected,
        a: &Boxed<Expr>,
        rest: &[Expr],
    ) -> Result<Typed, BindFault>
        requires first { BindsExpr (E.pre self.now.expr) (E.post self.now.expr) a.now }
        requires rest { BindsExprs (E.pre self.now.expr) (E.post self.now.expr) rest.now }
        ensures { Binds (exprs.binds_step (sight_of site.now)
            (Expr-F.And (meaning a.now) (map meaning rest.now)) state.old) result state.new }
    {
        let x = self.operand(site, state, a)?;
        let c = self.conditions(site, state, x, rest)?;
        let t = all_of(self.alloc, c)?;
        Ok(t)
    }

    /// `a or b`
    pub(crate) fn or(
        &self,
        site: &Site<'_>,
        state: &mut Collected,
        a: &Boxed<Expr>,
        rest: &[Expr],
    ) -> Result<Typed, BindFault>
        requires first { BindsExpr (E.pre self.now.expr) (E.post self.now.expr) a.now }
        requires rest { BindsExprs (E.pre self.now.expr) (E.post self.now.expr) rest.now }
        ensures { Binds (exprs.binds_step (sight_of site.now)
            (Expr-F.Or (meaning a.now) (map meaning rest.now)) state.old) result state.new }
    {
        let x = self.operand(site, state, a)?;
        let c = self.conditions(site, state, x, rest)?;
        let t = any_of(self.alloc, c)?;
        Ok(t)
    }

    /// Operands that are tested once all are bound.
    #[tactic(auto, unfolding(crate::specs::Operands::operands))]
    fn operands(
        &self,
        site: &Site<'_>,
        state: &mut Collected,
        list: &[Expr],
    ) -> Result<Operands, BindFault>
        requires { BindsExprs (E.pre self.now.expr) (E.post self.now.expr) list.now }
        ensures { Binds (operands.operands (sight_of site.now) (map meaning list.now) state.old)
            result state.new }
    {
        let mut done = no_operands(self.alloc);
        let mut left = list;
        'operands: while let [e, others @ ..] = left {
            let a = self.bind(site, state, e)?;
            done = with_operand(done, a)?;
            left = others;
        }
        Ok(done)
    }

    /// `a in (..)`
    pub(crate) fn in_list(
        &self,
        site: &Site<'_>,
        state: &mut Collected,
        a: &Boxed<Expr>,
        list: &[Expr],
    ) -> Result<Typed, BindFault>
        requires value { BindsExpr (E.pre self.now.expr) (E.post self.now.expr) a.now }
        requires list { BindsExprs (E.pre self.now.expr) (E.post self.now.expr) list.now }
        ensures { Binds (exprs.binds_step (sight_of site.now)
            (Expr-F.InList (meaning a.now) (map meaning list.now)) state.old) result state.new }
    {
        let x = self.operand(site, state, a)?;
        let list = self.operands(site, state, list)?;
        let t = in_list(self.alloc, x, list)?;
        Ok(t)
    }

    /// A term: an interval moves the date literal before it.
    #[tactic(auto, using(crate::proofs::Opened::term_is))]
    fn term(
        &self,
        site: &Site<'_>,
        state: &mut Collected,
        c: Chain,
        t: &Term,
    ) -> Result<Chain, BindFault>
        requires { BindsTerm (E.pre self.now.expr) (E.post self.now.expr) t.now }
        ensures { Binds ((term_meaning t.now).adds (sight_of site.now) c state.old)
            result state.new }
    {
        match interval_of(&t.value)? {
            Some((text, span)) => {
                let c = shifted(self.alloc, t.operator, c, &text, span)?;
                Ok(c)
            }
            None => {
                let b = self.bind(site, state, &t.value)?;
                let c = operated(adding_of(t.operator), c, b)?;
                Ok(c)
            }
        }
    }

    /// A factor.
    #[tactic(auto, using(crate::proofs::Opened::factor_is))]
    fn factor(
        &self,
        site: &Site<'_>,
        state: &mut Collected,
        c: Chain,
        f: &Factor,
    ) -> Result<Chain, BindFault>
        requires { BindsFactor (E.pre self.now.expr) (E.post self.now.expr) f.now }
        ensures { Binds ((factor_meaning f.now).adds (sight_of site.now) c state.old)
            result state.new }
    {
        let b = self.bind(site, state, &f.value)?;
        let c = operated(multiplying_of(f.operator), c, b)?;
        Ok(c)
    }

    /// A chain of terms after its first operand.
    #[tactic(auto, unfolding(crate::specs::Operands::chain))]
    fn terms(
        &self,
        site: &Site<'_>,
        state: &mut Collected,
        first: Typed,
        rest: &[Term],
    ) -> Result<Typed, BindFault>
        requires { Each (BindsTerm (E.pre self.now.expr) (E.post self.now.expr)) rest.now }
        ensures { Binds (operands.chain (sight_of site.now) first (map term_meaning rest.now)
            state.old) result state.new }
    {
        let mut done = begun(self.alloc, first);
        let mut left = rest;
        'terms: while let [term, others @ ..] = left {
            done = self.term(site, state, done, term)?;
            left = others;
        }
        Ok(ended(self.alloc, done)?)
    }

    /// A chain of factors after its first operand.
    #[tactic(auto, unfolding(crate::specs::Operands::chain))]
    fn factors(
        &self,
        site: &Site<'_>,
        state: &mut Collected,
        first: Typed,
        rest: &[Factor],
    ) -> Result<Typed, BindFault>
        requires { Each (BindsFactor (E.pre self.now.expr) (E.post self.now.expr)) rest.now }
        ensures { Binds (operands.chain (sight_of site.now) first (map factor_meaning rest.now)
            state.old) result state.new }
    {
        let mut done = begun(self.alloc, first);
        let mut left = rest;
        'factors: while let [factor, others @ ..] = left {
            done = self.factor(site, state, done, factor)?;
            left = others;
        }
        Ok(ended(self.alloc, done)?)
    }

    /// `a + b - c`
    pub(crate) fn sum(
        &self,
        site: &Site<'_>,
        state: &mut Collected,
        a: &Boxed<Expr>,
        rest: &[Term],
    ) -> Result<Typed, BindFault>
        requires first { BindsExpr (E.pre self.now.expr) (E.post self.now.expr) a.now }
        requires rest { Each (BindsTerm (E.pre self.now.expr) (E.post self.now.expr)) rest.now }
        ensures { Binds (exprs.binds_step (sight_of site.now)
            (Expr-F.Sum (meaning a.now) (map term_meaning rest.now)) state.old) result state.new }
    {
        let x = self.operand(site, state, a)?;
        let t = self.terms(site, state, x, rest)?;
        Ok(t)
    }

    /// `a * b / c`
    pub(crate) fn product(
        &self,
        site: &Site<'_>,
        state: &mut Collected,
        a: &Boxed<Expr>,
        rest: &[Factor],
    ) -> Result<Typed, BindFault>
        requires first { BindsExpr (E.pre self.now.expr) (E.post self.now.expr) a.now }
        requires rest { Each (BindsFactor (E.pre self.now.expr) (E.post self.now.expr)) rest.now }
        ensures { Binds (exprs.binds_step (sight_of site.now)
            (Expr-F.Product (meaning a.now) (map factor_meaning rest.now)) state.old)
            result state.new }
    {
        let x = self.operand(site, state, a)?;
        let t = self.factors(site, state, x, rest)?;
        Ok(t)
    }

    /// The condition of a CASE's arm.
    #[tactic(auto, using(crate::proofs::Opened::arm_is))]
    fn arm_condition(
        &self,
        site: &Site<'_>,
        state: &mut Collected,
        arm: &Arm,
    ) -> Result<Typed, BindFault>
        requires { BindsArm (E.pre self.now.expr) (E.post self.now.expr) arm.now }
        ensures { Binds ((arm_meaning arm.now).condition.binds (sight_of site.now) state.old)
            result state.new }
    {
        let t = self.bind(site, state, &arm.condition)?;
        Ok(t)
    }

    /// The value of a CASE's arm.
    #[tactic(auto, using(crate::proofs::Opened::arm_is))]
    fn arm_value(
        &self,
        site: &Site<'_>,
        state: &mut Collected,
        arm: &Arm,
    ) -> Result<Typed, BindFault>
        requires { BindsArm (E.pre self.now.expr) (E.post self.now.expr) arm.now }
        ensures { Binds ((arm_meaning arm.now).value.binds (sight_of site.now) state.old)
            result state.new }
    {
        let t = self.bind(site, state, &arm.value)?;
        Ok(t)
    }

    /// The conditions of a CASE's arms.
    #[tactic(auto, unfolding(crate::specs::Operands::arm_conditions))]
    fn arm_conditions(
        &self,
        site: &Site<'_>,
        state: &mut Collected,
        arms: &[Arm],
    ) -> Result<Operands, BindFault>
        requires { Each (BindsArm (E.pre self.now.expr) (E.post self.now.expr)) arms.now }
        ensures { Binds (operands.arm_conditions (sight_of site.now) (map arm_meaning arms.now)
            state.old) result state.new }
    {
        let mut done = no_operands(self.alloc);
        let mut left = arms;
        'arms: while let [arm, others @ ..] = left {
            let a = self.arm_condition(site, state, arm)?;
            done = with_operand(done, a)?;
            left = others;
        }
        Ok(done)
    }

    /// The branches of a CASE's arms.
    #[tactic(auto, unfolding(crate::specs::Operands::arm_values))]
    fn arm_values(
        &self,
        site: &Site<'_>,
        state: &mut Collected,
        arms: &[Arm],
    ) -> Result<Operands, BindFault>
        requires { Each (BindsArm (E.pre self.now.expr) (E.post self.now.expr)) arms.now }
        ensures { Binds (operands.arm_values (sight_of site.now) (map arm_meaning arms.now)
            state.old) result state.new }
    {
        let mut done = no_operands(self.alloc);
        let mut left = arms;
        'arms: while let [arm, others @ ..] = left {
            let a = self.arm_value(site, state, arm)?;
            done = with_operand(done, a)?;
            left = others;
        }
        Ok(done)
    }

    /// CASE without ELSE.
    pub(crate) fn case(
        &self,
        site: &Site<'_>,
        state: &mut Collected,
        arms: &[Arm],
    ) -> Result<Typed, BindFault>
        requires { Each (BindsArm (E.pre self.now.expr) (E.post self.now.expr)) arms.now }
        ensures { Binds (exprs.binds_step (sight_of site.now)
            (Expr-F.Case (map arm_meaning arms.now)) state.old) result state.new }
    {
        let whens = self.arm_conditions(site, state, arms)?;
        let gives = self.arm_values(site, state, arms)?;
        let t = case_of(self.alloc, whens, gives)?;
        Ok(t)
    }

    /// CASE with ELSE.
    pub(crate) fn case_else(
        &self,
        site: &Site<'_>,
        state: &mut Collected,
        arms: &[Arm],
        other: &Boxed<Expr>,
    ) -> Result<Typed, BindFault>
        requires arms { Each (BindsArm (E.pre self.now.expr) (E.post self.now.expr)) arms.now }
        requires other { BindsExpr (E.pre self.now.expr) (E.post self.now.expr) other.now }
        ensures { Binds (exprs.binds_step (sight_of site.now)
            (Expr-F.CaseElse (map arm_meaning arms.now) (meaning other.now)) state.old)
            result state.new }
    {
        let whens = self.arm_conditions(site, state, arms)?;
        let gives = self.arm_values(site, state, arms)?;
        let x = self.operand(site, state, other)?;
        let t = case_else_of(self.alloc, whens, gives, x)?;
        Ok(t)
    }
}
