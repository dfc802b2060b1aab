//! What is collected while a query is bound.
ghost use Rattle.std.specs.Prelude.{◌≡◌};
ghost use Rattle.sql_binder_steps.specs.Steps.{Binds, input, aggregate, counted, take_aggregates};

use crate::fault::BindFault;
use crate::scope::{ScopeColumn, narrow};
use crate::view::Header;
use base_date::CivilDate;
use base_refusals::BindRefusal;
use expr_scalar::{Expr, Kind, Operation};
use sql_bound_query::{BoundAggregate, BoundBlock, BoundExpr, BoundSource, Input};
use sqlite_items::{Boxed, Items};
use std::alloc::Global;
use std::mem;

/// What an expression is.
#[derive(Clone, Copy, PartialEq, Eq)]
pub enum BoundKind {
    /// A value of a kind.
    Value(Kind),
    /// A condition.
    Condition,
}

/// How many FROM items the statement has so far, the inputs of the clause, and the aggregates of
/// the query.
#[derive(Drop)]
pub struct Collected {
    pub items: u32,
    pub inputs: Items<Input>,
    pub aggregates: Items<BoundAggregate>,
}

/// An expression over the inputs of its clause; and its date, where it is a date literal with its
/// intervals.
#[derive(Drop)]
pub struct Typed {
    pub value: Boxed<Expr>,
    pub kind: BoundKind,
    pub date: Option<CivilDate>,
}

/// An expression with inputs of its own, and what it is.
#[derive(Drop)]
pub struct Part {
    pub expr: BoundExpr,
    pub kind: BoundKind,
}

/// A chain of operations so far: its first operand, the operations on it, what it is, and its date,
/// where it is a date literal with its intervals.
#[derive(Drop)]
pub struct Chain {
    pub value: Boxed<Expr>,
    pub operations: Items<Operation>,
    pub kind: BoundKind,
    pub date: Option<CivilDate>,
}

/// Operands of AND or OR so far, and whether all of them are conditions.
#[derive(Drop)]
pub struct Conditions {
    pub values: Items<Expr>,
    pub are_conditions: bool,
}

/// Operands of a list or a CASE so far, and what each is.
#[derive(Drop)]
pub struct Operands {
    pub values: Items<Expr>,
    pub kinds: Items<BoundKind>,
}

/// Rows of FROM, and their columns.
#[derive(Drop)]
pub struct FromRows {
    pub source: Boxed<BoundSource>,
    pub columns: Items<ScopeColumn>,
}

/// The select list so far, and its columns.
#[derive(Drop)]
pub struct Shown {
    pub list: Items<BoundExpr>,
    pub headers: Items<Header>,
}

/// A bound query and its columns.
#[derive(Drop)]
pub struct BoundTable {
    pub block: Boxed<BoundBlock>,
    pub headers: Items<Header>,
}

impl Collected {
    /// Adds an input, and gives its number.
    #[tactic(auto, unfolding(crate::specs::Steps::input))]
    pub fn input(&mut self, i: Input) -> Result<u32, BindFault>
        ensures { Binds (input i self.old) result self.new }
    {
        let number = narrow(self.inputs.len())?;
        self.inputs.push(i)?;
        Ok(number)
    }

    /// Adds an aggregate, and gives its number.
    #[tactic(auto, unfolding(crate::specs::Steps::aggregate))]
    pub fn aggregate(&mut self, a: BoundAggregate) -> Result<usize, BindFault>
        ensures { Binds (aggregate a self.old) result self.new }
    {
        let number = self.aggregates.len();
        self.aggregates.push(a)?;
        Ok(number)
    }

    /// Counts FROM items.
    #[tactic(auto, unfolding(crate::specs::Steps::counted))]
    pub fn counted(&mut self, items: u64) -> Result<(), BindFault>
        ensures { Binds (counted items self.old) result self.new }
    {
        if items > 32 || self.items > 32 - items as u32 {
            return Err(BindFault::Refused(BindRefusal::TooManyTables));
        }
        self.items += items as u32;
        Ok(())
    }

    /// Puts inputs in the place of those that are there.
    pub fn swap_inputs(&mut self, inputs: Items<Input>) -> Items<Input>
        ensures was { result ≡ self.old.inputs }
        ensures now { self.new ≡ record self.old { inputs = inputs } }
    {
        mem::replace(&mut self.inputs, inputs)
    }

    /// Puts aggregates in the place of those that are there.
    pub fn swap_aggregates(&mut self, aggregates: Items<BoundAggregate>) -> Items<BoundAggregate>
        ensures was { result ≡ self.old.aggregates }
        ensures now { self.new ≡ record self.old { aggregates = aggregates } }
    {
        mem::replace(&mut self.aggregates, aggregates)
    }

    /// Takes the aggregates out.
    #[tactic(auto, unfolding(crate::specs::Steps::take_aggregates))]
    pub fn take_aggregates(&mut self, alloc: Global) -> Result<Items<BoundAggregate>, BindFault>
        ensures { Binds (take_aggregates self.old) result self.new }
    {
        Ok(mem::replace(&mut self.aggregates, Items::new(alloc)))
    }
}
