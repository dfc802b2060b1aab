//! Tables that are there whole.
ghost use Rattle.std.specs.Prelude.{◌≡◌, ◌+◌, ◌≤◌, ◌↔◌, length, IfOk, OnOk, IsTrue};
ghost use Rattle.base_columns.specs.Lists.{one_list};
ghost use Rattle.base_schema.specs.Kinds.{RowsAreOf};
ghost use Rattle.base_schema.specs.State.{table_rows};
ghost use Rattle.plan_algebra.specs.Trees.{HasKinds};
ghost use Rattle.plan_algebra.specs.States.{empty_state, with_table};

use crate::kept_plan::KeptPlan;
use crate::piece::Piece;
use crate::steps::Steps;
use crate::tables::Tables;
use base_columns::{Bag, Rows, Segment};
use base_schema::TableName;
use base_value::Row;
use std::alloc::{AllocError, Global};
use std::marker::Model;
use std::sync::ledger::Ledger;

/// The rows of the eight tables, each of its table's kinds. A scan hands out shares of their
/// segments.
pub struct WholeTables {
    region: Rows,
    nation: Rows,
    part: Rows,
    supplier: Rows,
    partsupp: Rows,
    customer: Rows,
    orders: Rows,
    lineitem: Rows,
}

impl Drop for WholeTables {
    #[inline]
    fn drop(self) {
        let WholeTables {
            region,
            nation,
            part,
            supplier,
            partsupp,
            customer,
            orders,
            lineitem,
        } = self;
        drop(region);
        drop(nation);
        drop(part);
        drop(supplier);
        drop(partsupp);
        drop(customer);
        drop(orders);
        drop(lineitem);
    }
}

impl Model for WholeTables {
    ghost use Rattle.base_schema.specs.State.{State, table_rows};
    ghost use Rattle.plan_algebra.specs.Trees.{HasKinds};
    ghost use Rattle.plan_algebra.specs.States.{of_tables};

    ghost Value = { State };

    ghost view = { λ t. of_tables t.region t.nation t.part t.supplier t.partsupp t.customer
        t.orders t.lineitem };

    ghost invariant = { λ t. HasKinds (table_rows (of_tables t.region t.nation t.part t.supplier
        t.partsupp t.customer t.orders t.lineitem)) };
}

impl WholeTables {
    /// No rows.
    pub fn new(alloc: Global) -> WholeTables
        ensures { result ≡ empty_state }
    {
        WholeTables {
            region: Rows::new(alloc),
            nation: Rows::new(alloc),
            part: Rows::new(alloc),
            supplier: Rows::new(alloc),
            partsupp: Rows::new(alloc),
            customer: Rows::new(alloc),
            orders: Rows::new(alloc),
            lineitem: Rows::new(alloc),
        }
    }

    /// Puts these rows in place of a table's.
    pub fn put(&mut self, table: TableName, rows: Rows)
        requires { RowsAreOf table rows }
        ensures { self.new ≡ with_table self.old table rows }
    {
        match table {
            TableName::Region => self.region = rows,
            TableName::Nation => self.nation = rows,
            TableName::Part => self.part = rows,
            TableName::Supplier => self.supplier = rows,
            TableName::Partsupp => self.partsupp = rows,
            TableName::Customer => self.customer = rows,
            TableName::Orders => self.orders = rows,
            TableName::Lineitem => self.lineitem = rows,
        }
    }

    /// The rows of a table. Those of every table are of its kinds.
    pub fn rows(&self, table: TableName) -> &Rows
        ensures rows { result.now ≡ table_rows self.now table }
        ensures kinds { HasKinds (table_rows self.now) }
    {
        match table {
            TableName::Region => &self.region,
            TableName::Nation => &self.nation,
            TableName::Part => &self.part,
            TableName::Supplier => &self.supplier,
            TableName::Partsupp => &self.partsupp,
            TableName::Customer => &self.customer,
            TableName::Orders => &self.orders,
            TableName::Lineitem => &self.lineitem,
        }
    }
}

#[tactic(auto, using(base_columns::proofs::RowLists::rows))]
// All rows of these segments, in pieces.
fn whole_pieces(alloc: Global, segments: &[Segment]) -> Result<Vec<Piece>, AllocError>
    ensures { IfOk result (λ pieces. one_list pieces.items ≡ one_list segments.now) }
{
    let mut pieces = Vec::with_capacity(alloc, segments.len())?;
    for segment in segments {
        let segment = segment.clone()?;
        pieces.push(Piece::whole(segment))?;
    }
    Ok(pieces)
}

impl Tables for WholeTables {
    ghost use Rattle.base_schema.specs.State.{table_rows};

    ghost rows = { table_rows };

    fn count(&self, table: TableName) -> u64 {
        self.rows(table).len() as u64
    }

    fn scan<L: Ledger>(
        &self,
        alloc: Global,
        table: TableName,
        steps: &mut Steps<L>,
    ) -> Result<Vec<Piece>, AllocError> {
        let rows = self.rows(table);
        let pieces = whole_pieces(alloc, rows.segments())?;
        steps.add(rows.len() as u64);
        Ok(pieces)
    }

    // There are no kept views.
    fn kept(
        &self,
        _alloc: Global,
        _number: u32,
        _plan: &KeptPlan,
    ) -> Result<Option<Bag>, AllocError> {
        Ok(None)
    }
}

/// Whether each row is of the table, as `WholeTables::put` asks.
pub fn rows_are_of(table: TableName, rows: &[Row]) -> bool
    ensures { IsTrue result ↔ RowsAreOf table rows.now }
{
    rows.iter().all(|row| table.admits(row.values()))
}
