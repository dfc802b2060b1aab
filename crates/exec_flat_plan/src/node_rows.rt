//! The rows of a node, as they are held.
ghost use Rattle.std.specs.Prelude.{◌≡◌, ◌+◌, IfOk, length};
ghost use Rattle.plan_algebra.specs.Plans.{groups};
ghost use Rattle.exec_parallel_scan.specs.Stages.{stage_rows, stage_width};

use crate::lent::LentBag;
use crate::scan::LateScan;
use base_columns::Bag;
use exec_parallel_scan::{Stage, bag_groups, staged_bag};
use plan_algebra::Aggregate;
use std::alloc::{AllocError, Global};
use std::marker::Model;
use std::thread::Threads;

// A bag, or a scan whose rows are computed when they are asked for.
#[derive(Drop)]
enum Held<'a> {
    Made(Bag),
    Late(LateScan<'a>),
}

/// The rows of a node, seen as their width and their list.
#[derive(Drop)]
pub(crate) struct NodeRows<'a> {
    held: Held<'a>,
}

impl<'a> Model for NodeRows<'a> {
    ghost use Rattle.base_row_laws.specs.Ranked.{Relation};
    ghost use Rattle.base_value.specs.declared.value.Value.{Value as Datum};
    ghost use Rattle.exec_flat_plan.specs.Holding.{held_relation};

    ghost Value = { Relation Datum };

    ghost view = { λ r. held_relation r.held };
}

impl<'a> NodeRows<'a> {
    /// The rows of a bag.
    pub(crate) fn made(bag: Bag) -> NodeRows<'a>
        ensures { result ≡ bag }
    {
        NodeRows {
            held: Held::Made(bag),
        }
    }

    /// The rows of a scan.
    pub(crate) fn late(scan: LateScan<'a>) -> NodeRows<'a>
        ensures { result ≡ scan.entry }
    {
        NodeRows {
            held: Held::Late(scan),
        }
    }

    /// The rows as a bag, which is lent where there is one.
    pub(crate) fn bag<R: Threads + Sync>(
        &self,
        rt: &R,
        alloc: Global,
    ) -> Result<LentBag<'_>, AllocError>
        ensures { IfOk result (λ b. b ≡ self.now) }
    {
        match &self.held {
            Held::Made(bag) => Ok(LentBag::lent(bag)),
            Held::Late(scan) => {
                let bag = scan.bag(rt, alloc)?;
                Ok(LentBag::own(bag))
            }
        }
    }

    /// The rows as a bag of its own.
    pub(crate) fn into_bag<R: Threads + Sync>(
        self,
        rt: &R,
        alloc: Global,
    ) -> Result<Bag, AllocError>
        ensures { IfOk result (λ b. b ≡ self.entry) }
    {
        match self.held {
            Held::Made(bag) => Ok(bag),
            Held::Late(scan) => {
                let bag = scan.bag(rt, alloc)?;
                Ok(bag)
            }
        }
    }

    /// The rows after one stage more, which a scan leaves for later where that is asked.
    pub(crate) fn then<R: Threads + Sync>(
        &self,
        rt: &R,
        alloc: Global,
        stage: Stage<'a>,
        is_late: bool,
    ) -> Result<NodeRows<'a>, AllocError>
        ensures width { IfOk result (λ r. r.width ≡ stage_width stage.entry self.now.width) }
        ensures rows { IfOk result (λ r. r.rows ≡ stage_rows stage.entry self.now.rows) }
    {
        match &self.held {
            Held::Made(bag) => {
                let after = staged_bag(rt, alloc, bag, &[stage])?;
                Ok(NodeRows::made(after))
            }
            Held::Late(scan) => {
                let after = scan.then(alloc, stage)?;
                if is_late {
                    return Ok(NodeRows::late(after));
                }
                let bag = after.bag(rt, alloc)?;
                Ok(NodeRows::made(bag))
            }
        }
    }
    /// The groups of the rows.
    pub(crate) fn grouped<R: Threads + Sync>(
        &self,
        rt: &R,
        alloc: Global,
        by: &[u32],
        aggregates: &[Aggregate],
    ) -> Result<Bag, AllocError>
        ensures width { IfOk result (λ b. b.width ≡ length by.now + length aggregates.now) }
        ensures rows { IfOk result (λ b. b.rows ≡ groups by.now aggregates.now self.now.rows) }
    {
        match &self.held {
            Held::Made(bag) => {
                let made = bag_groups(rt, alloc, bag, by, aggregates)?;
                Ok(made)
            }
            Held::Late(scan) => {
                let made = scan.grouped(rt, alloc, by, aggregates)?;
                Ok(made)
            }
        }
    }
}
