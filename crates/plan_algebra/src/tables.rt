//! Tables as a run reads them.
ghost use Rattle.std.specs.Prelude.{◌≡◌, ◌+◌, ◌≤◌, List, length, IfOk, IfSome, OnOk};
ghost use Rattle.base_columns.specs.Lists.{one_list};
ghost use Rattle.base_row_laws.specs.Bags.{SameBag};
ghost use Rattle.base_value.specs.declared.value.Value.{Value};
ghost use Rattle.base_schema.specs.declared.table.TableName.{TableName};
ghost use Rattle.plan_algebra.specs.KeptPlans.{query_rows};
ghost use Rattle.plan_algebra.specs.Trees.{HasKinds};

use crate::kept_plan::KeptPlan;
use crate::piece::Piece;
use crate::steps::Steps;
use base_columns::Bag;
use base_schema::TableName;
use std::alloc::{AllocError, Global};
use std::sync::ledger::Ledger;

/// Tables whose reads are counted: a step for each row that a scan hands out; and kept views.
pub trait Tables {
    ghost rows: { Self → TableName → List (List Value) };

    /// How many rows the table has. The rows of every table are of its kinds.
    fn count(&self, table: TableName) -> u64
        ensures count { result ≡ length (rows self.now table) }
        ensures kinds { HasKinds (rows self.now) };

    /// The table's rows in pieces, one after the other. Out of memory may have taken fewer steps.
    fn scan<L: Ledger>(
        &self,
        alloc: Global,
        table: TableName,
        steps: &mut Steps<L>,
    ) -> Result<Vec<Piece>, AllocError>
        ensures rows { IfOk result (λ pieces. one_list pieces.items ≡ rows self.now table) }
        ensures steps { OnOk result (steps.new ≡ steps.old + length (rows self.now table)) }
        ensures most { steps.new ≤ steps.old + length (rows self.now table) }
        ensures kinds { HasKinds (rows self.now) };

    /// The rows of this plan, at their standings, in any order, where a kept view of this number and
    /// this plan is there; nothing where it isn't, so that they are computed from the table.
    fn kept(&self, alloc: Global, number: u32, plan: &KeptPlan) -> Result<Option<Bag>, AllocError>
        ensures rows { IfOk result (λ found. IfSome found (λ bag.
            SameBag bag.rows (query_rows plan.now (rows self.now plan.now.table)))) }
        ensures width { IfOk result (λ found. IfSome found (λ bag.
            bag.width ≡ length plan.now.list)) };
}
