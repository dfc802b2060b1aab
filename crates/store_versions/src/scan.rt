//! A version's tables as a run reads them.
ghost use Rattle.std.specs.Prelude.{◌≡◌, ◌+◌, ◌≤◌, List, IfOk, IfSome, OnOk, length};
ghost use Rattle.base_columns.specs.Lists.{one_list};
ghost use Rattle.base_row_laws.specs.Bags.{SameBag};
ghost use Rattle.plan_algebra.specs.KeptPlans.{query_rows};
ghost use Rattle.plan_algebra.specs.Trees.{HasKinds};
ghost use Rattle.base_schema.specs.State.{table_rows};
ghost use Rattle.store_versions.specs.Trials.{tables_of};

use crate::attachment::Attachment;
use crate::directory::Directory;
use base_columns::Bag;
use base_schema::TableName;
use plan_algebra::{KeptPlan, Piece, Steps, Tables};
use sqlite_items::Items;
use std::alloc::{AllocError, Global};
use std::sync::ledger::Ledger;
use store_state::Part;

/// A part's rows as a piece, of which nothing is copied.
pub(crate) fn piece_of(alloc: Global, part: &Part) -> Result<Piece, AllocError>
    ensures { IfOk result (λ piece. piece ≡ part.now) }
{
    let (segment, places) = part.stored(alloc)?;
    match places {
        None => Ok(Piece::whole(segment)),
        Some(places) => Ok(Piece::at(segment, Items::from_vec(places))),
    }
}

/// The rows of parts as pieces.
fn pieces_of(alloc: Global, parts: &[Part]) -> Result<Vec<Piece>, AllocError>
    ensures { IfOk result (λ pieces. pieces.items ≡ parts.now) }
{
    let mut pieces = Vec::with_capacity(alloc, parts.len())?;
    for part in parts {
        pieces.push(piece_of(alloc, part)?)?;
    }
    Ok(pieces)
}

impl<A: Attachment> Tables for Directory<A> {
    ghost rows = { λ directory table. table_rows (tables_of directory) table };

    fn count(&self, table: TableName) -> u64 {
        Directory::count(self, table)
    }

    fn scan<L: Ledger>(
        &self,
        alloc: Global,
        table: TableName,
        steps: &mut Steps<L>,
    ) -> Result<Vec<Piece>, AllocError> {
        let count = Directory::count(self, table);
        let pieces = pieces_of(alloc, self.parts(table))?;
        steps.add(count);
        Ok(pieces)
    }

    fn kept(&self, alloc: Global, number: u32, plan: &KeptPlan) -> Result<Option<Bag>, AllocError> {
        let found = self.attachment().view_rows(alloc, number, plan)?;
        Ok(found)
    }
}
