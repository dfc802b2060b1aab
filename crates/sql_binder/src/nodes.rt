//! Expressions of each kind.
ghost use Rattle.std.specs.Prelude.{◌≡◌, IfOk};
ghost use Rattle.sql_bound_query.specs.declared.query.BoundAggregate.TheVariants.{CountRows};
ghost use Rattle.expr_scalar.specs.declared.expr.Expr.TheVariants as e;
ghost use Rattle.expr_scalar.specs.declared.kind.Kind.TheVariants as kind;
ghost use Rattle.base_value.specs.declared.value.Value.TheVariants as value;
ghost use Rattle.sql_binder_steps.specs.declared.collected.BoundKind.TheVariants as kinds;
ghost use Rattle.sql_binder_steps.specs.Values.{typed};
ghost use Rattle.sql_binder_steps.specs.Parts as spec;
ghost use Rattle.sql_binder.specs.Binding.{meaning};
ghost use Rattle.sql_binder_steps.specs.Names.{sight_of};
ghost use Rattle.sql_binder.specs.Nests.{Below};
ghost use Rattle.sql_binder.specs.Sizes.{size};
ghost use Rattle.sql_binder_steps.specs.Steps.{Binds};

use crate::subqueries::QueryBinder;
use base_decimal::Scale;
use base_refusals::BindRefusal;
use base_text::Text;
use base_value::Value;
use expr_scalar::Kind;
use sql_ast::{Block, Expr};
use sql_binder_steps::BindFault;
use sql_binder_steps::collected::{BoundKind, BoundTable, Collected, Typed};
use sql_binder_steps::scope::Site;
use sql_binder_steps::steps::{column, grouped};
use sql_binder_steps::values::{date_literal, typed};
use sql_bound_query::BoundAggregate;
use std::alloc::{AllocError, Global};

/// A number.
fn number(alloc: Global, coefficient: i128, scale: Scale) -> Result<Typed, AllocError>
    ensures { IfOk result
        (λ t. t ≡ typed (e.Literal (value.Number scale coefficient))
        (kinds.Value (kind.Number scale))) }
{
    let value = expr_scalar::Expr::Literal(Value::Number(scale, coefficient));
    let t = typed(alloc, value, BoundKind::Value(Kind::Number(scale)))?;
    Ok(t)
}

/// A text.
fn text(alloc: Global, t: &Text) -> Result<Typed, AllocError>
    ensures { IfOk result (λ r. r ≡ typed (e.Literal (value.Text t.now)) (kinds.Value kind.Text)) }
{
    let value = expr_scalar::Expr::Literal(Value::Text(t.clone()?));
    let t = typed(alloc, value, BoundKind::Value(Kind::Text))?;
    Ok(t)
}

/// `count(*)`
fn count_rows(alloc: Global, site: &Site<'_>, state: &mut Collected) -> Result<Typed, BindFault>
    ensures { Binds (spec.grouped (sight_of site.now) CountRows (kind.Number 0) state.old)
        result state.new }
{
    let kind = Kind::Number(Scale::new(0));
    let t = grouped(alloc, site, state, BoundAggregate::CountRows, kind)?;
    Ok(t)
}

impl<
    E: Copy + Fn(Global, &Site<'_>, &mut Collected, &Expr) -> Result<Typed, BindFault>,
    Q: Fn(Global, &Site<'_>, &mut Collected, &Block) -> Result<BoundTable, BindFault>,
> QueryBinder<E, Q> {
    /// An expression, whose parts the two functions bind.
    pub(crate) fn expr(
        &self,
        site: &Site<'_>,
        state: &mut Collected,
        e: &Expr,
    ) -> Result<Typed, BindFault>
        requires { Below (size e.now) (E.pre self.now.exprs.expr) (E.post self.now.exprs.expr)
            (Q.pre self.now.query) (Q.post self.now.query) }
        ensures { Binds ((meaning e.now).binds (sight_of site.now) state.old) result state.new }
    {
        match e {
            Expr::Number(c, s) => {
                let t = number(self.exprs.alloc, *c, *s)?;
                Ok(t)
            }
            Expr::Text(t) => {
                let t = text(self.exprs.alloc, t)?;
                Ok(t)
            }
            Expr::Date(t) => {
                let t = date_literal(self.exprs.alloc, t)?;
                Ok(t)
            }
            Expr::Interval(_, _) => Err(BindFault::Refused(BindRefusal::IntervalOnColumn)),
            Expr::Column(name) => column(self.exprs.alloc, site, state, name),
            Expr::Negative(a) => self.exprs.negative(site, state, a),
            Expr::Sum(a, terms) => self.exprs.sum(site, state, a, terms.as_slice()),
            Expr::Product(a, factors) => self.exprs.product(site, state, a, factors.as_slice()),
            Expr::Compare(c, a, b) => self.exprs.compare(site, state, *c, a, b),
            Expr::CompareQuery(c, k, a, q) => self.compare_query(site, state, *c, *k, a, q),
            Expr::IsNull(a) => self.exprs.null_test(site, state, a),
            Expr::Between(a, low, high) => self.exprs.between(site, state, a, low, high),
            Expr::Like(a, pattern) => self.exprs.like(site, state, a, pattern),
            Expr::InList(a, list) => self.exprs.in_list(site, state, a, list.as_slice()),
            Expr::InQuery(a, q) => self.in_query(site, state, a, q),
            Expr::Exists(q) => self.exists(site, state, q),
            Expr::Scalar(q) => self.scalar(site, state, q),
            Expr::Not(a) => self.exprs.not(site, state, a),
            Expr::And(a, rest) => self.exprs.and(site, state, a, rest.as_slice()),
            Expr::Or(a, rest) => self.exprs.or(site, state, a, rest.as_slice()),
            Expr::Case(arms) => self.exprs.case(site, state, arms.as_slice()),
            Expr::CaseElse(arms, other) => self
                .exprs
                .case_else(site, state, arms.as_slice(), other),
            Expr::Extract(s, a) => self.exprs.extract(site, state, *s, a),
            Expr::Substring(a, from, count) => self.exprs.substring(site, state, a, *from, *count),
            Expr::CountRows => count_rows(self.exprs.alloc, site, state),
            Expr::Count(a) => self.exprs.count(site, state, a),
            Expr::CountDistinct(a) => self.exprs.count_distinct(site, state, a),
            Expr::Aggregate(f, a) => self.exprs.aggregate(site, state, *f, a),
        }
    }
}
