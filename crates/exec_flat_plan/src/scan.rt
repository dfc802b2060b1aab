//! The rows of tables, which are computed when they are asked for.
ghost use Rattle.std.specs.Prelude.{◌≡◌, ◌+◌, ◌≤◌, ◌++◌, ◌∷◌, [], length, IfOk, OnOk};
ghost use Rattle.std.specs.List.{All};
ghost use Rattle.base_row_laws.specs.Rows.{scanned};
ghost use Rattle.base_columns.specs.Lists.{one_list};
ghost use Rattle.plan_algebra.specs.Plans.{groups};
ghost use Rattle.base_schema.specs.Tables.{kinds_of};
ghost use Rattle.exec_parallel_scan.specs.Stages.{stage_rows, stage_width, staged, staged_width};

use base_columns::Bag;
use base_schema::TableName;
use exec_parallel_scan::{Stage, staged_groups, staged_scan};
use plan_algebra::{Aggregate, Piece, Steps, Tables};
use std::alloc::{AllocError, Global};
use std::marker::Model;
use std::sync::Arc;
use std::sync::ledger::Ledger;
use std::thread::Threads;

/// The pieces of a table of some width, and the stages that its rows still go through. It is seen
/// as the rows after them.
#[derive(Drop)]
pub(crate) struct LateScan<'a> {
    width: usize,
    pieces: Arc<Vec<Piece>>,
    stages: Vec<Stage<'a>>,
}

impl<'a> Model for LateScan<'a> {
    ghost use Rattle.std.specs.Prelude.{◌≡◌, length};
    ghost use Rattle.std.specs.List.{All};
    ghost use Rattle.std.specs.Arc.{arc_value};
    ghost use Rattle.base_row_laws.specs.Ranked.{Relation};
    ghost use Rattle.base_value.specs.declared.value.Value.{Value as Datum};
    ghost use Rattle.base_columns.specs.Lists.{one_list};
    ghost use Rattle.exec_flat_plan.specs.Late.{late_relation};

    ghost Value = { Relation Datum };

    ghost view = { λ s. late_relation s.width (arc_value s.pieces).items s.stages.items };

    ghost invariant = { λ s. All (λ row. length row ≡ s.width)
        (one_list (arc_value s.pieces).items) };
}

#[tactic(auto, using(crate::proofs::LateRows::late))]
impl<'a> LateScan<'a> {
    /// The rows of these pieces.
    pub(crate) fn new(
        alloc: Global,
        width: usize,
        pieces: Vec<Piece>,
    ) -> Result<LateScan<'a>, AllocError>
        requires { All (λ row. length row ≡ width) (one_list pieces.items) }
        ensures width { IfOk result (λ s. s.width ≡ width) }
        ensures rows { IfOk result (λ s. s.rows ≡ scanned (one_list pieces.items)) }
    {
        let pieces = Arc::new(alloc, pieces)?;
        Ok(LateScan {
            width,
            pieces,
            stages: Vec::new(alloc),
        })
    }

    /// The rows after one stage more. The pieces are shared.
    pub(crate) fn then(&self, alloc: Global, stage: Stage<'a>) -> Result<LateScan<'a>, AllocError>
        ensures width { IfOk result (λ s. s.width ≡ stage_width stage.entry self.now.width) }
        ensures rows { IfOk result (λ s. s.rows ≡ stage_rows stage.entry self.now.rows) }
    {
        let pieces = self.pieces.clone()?;
        let mut stages = Vec::from_slice(alloc, self.stages.as_slice())?;
        stages.push(stage)?;
        Ok(LateScan {
            width: self.width,
            pieces,
            stages,
        })
    }

    /// The rows as a bag.
    pub(crate) fn bag<R: Threads + Sync>(&self, rt: &R, alloc: Global) -> Result<Bag, AllocError>
        ensures { IfOk result (λ b. b ≡ self.now) }
    {
        let pieces = &*self.pieces;
        let bag = staged_scan(
            rt,
            alloc,
            self.width,
            pieces.as_slice(),
            self.stages.as_slice(),
        )?;
        Ok(bag)
    }

    /// The groups of the rows.
    pub(crate) fn grouped<R: Threads + Sync>(
        &self,
        rt: &R,
        alloc: Global,
        by: &[u32],
        aggregates: &[Aggregate],
    ) -> Result<Bag, AllocError>
        ensures width { IfOk result (λ b. b.width ≡ length by.now + length aggregates.now) }
        ensures rows { IfOk result (λ b. b.rows ≡ groups by.now aggregates.now self.now.rows) }
    {
        let pieces = &*self.pieces;
        let bag = staged_groups(
            rt,
            alloc,
            self.width,
            pieces.as_slice(),
            self.stages.as_slice(),
            by,
            aggregates,
        )?;
        Ok(bag)
    }
}

/// The rows of a table, with a step for each.
pub(crate) fn table_scan<'a, T: Tables, L: Ledger>(
    alloc: Global,
    table: TableName,
    tables: &T,
    steps: &mut Steps<L>,
) -> Result<LateScan<'a>, AllocError>
    ensures width { IfOk result (λ s. s.width ≡ length (kinds_of table)) }
    ensures rows { IfOk result (λ s. s.rows ≡ scanned (T.rows tables.now table)) }
    ensures steps { OnOk result (steps.new ≡ steps.old + length (T.rows tables.now table)) }
    ensures most { steps.new ≤ steps.old + length (T.rows tables.now table) }
{
    let pieces = tables.scan(alloc, table, steps)?;
    let scan = LateScan::new(alloc, table.kinds().len(), pieces)?;
    Ok(scan)
}
