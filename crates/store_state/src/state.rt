//! The type `State`.
ghost use Rattle.std.specs.Prelude.{◌≡◌, length, IfOk};
ghost use Rattle.base_columns.specs.Lists.{one_list};
ghost use Rattle.base_schema.specs.Kinds.{RowsAreOf};
ghost use Rattle.base_schema.specs.State.{table_rows};
ghost use Rattle.store_state.specs.Lists.{IsOfKinds, place_of, state_of};
ghost use Rattle.store_state.specs.Moves.{no_rows};
ghost use Rattle.store_state.specs.Refresh.{with_sales};

use crate::part::Part;
use crate::parts::Parts;
use base_columns::Rows;
use base_schema::TableName;
use base_value::Row;
use std::alloc::{AllocError, Global};
use std::marker::Model;

/// The rows of the eight tables, each of its table's kinds. Two rows of a table may have the same
/// primary key.
#[derive(Drop)]
pub struct State {
    /// The rows of each table, in the schema's order.
    tables: Vec<Parts>,
}

impl Model for State {
    ghost use Rattle.std.specs.Prelude.{◌≡◌, length};
    ghost use Rattle.base_schema.specs.State.{State as Tables};
    ghost use Rattle.store_state.specs.Lists.{IsOfKinds, state_of};

    ghost Value = { Tables };

    ghost view = { λ s. state_of s.tables.items };

    ghost invariant = { λ s. (length s.tables.items ≡ 8) × IsOfKinds (state_of s.tables.items) };
}

/// The table's place in the schema's order, counted from 0.
pub fn place(table: TableName) -> usize
    ensures { result ≡ place_of table }
{
    match table {
        TableName::Region => 0,
        TableName::Nation => 1,
        TableName::Part => 2,
        TableName::Supplier => 3,
        TableName::Partsupp => 4,
        TableName::Customer => 5,
        TableName::Orders => 6,
        TableName::Lineitem => 7,
    }
}

/// The rows of the table among eight lists in the schema's order.
fn table_parts(tables: &[Parts], table: TableName) -> &Parts
    requires { length tables.now ≡ 8 }
    ensures { result.now ≡ table_rows (state_of tables.now) table }
{
    &tables[place(table)]
}

impl State {
    /// The state of these eight lists, which stand in the schema's order and whose rows are of
    /// their tables' kinds. No row is copied.
    pub fn new(alloc: Global, tables: Vec<Rows>) -> Result<State, AllocError>
        requires eight { length tables.items ≡ 8 }
        requires kinds { IsOfKinds (state_of tables.items) }
        ensures { IfOk result (λ state. state ≡ state_of tables.items) }
    {
        let mut all = Vec::with_capacity(alloc, 8)?;
        for rows in &tables {
            all.push(Parts::of(alloc, rows)?)?;
        }
        Ok(State { tables: all })
    }

    /// Eight tables without rows.
    pub(crate) fn empty(alloc: Global) -> Result<State, AllocError>
        ensures { IfOk result (λ state. state ≡ no_rows) }
    {
        let mut tables = Vec::with_capacity(alloc, 8)?;
        for _i in 0..8usize {
            tables.push(Parts::new(alloc))?;
        }
        Ok(State { tables })
    }

    /// The rows of a table.
    pub(crate) fn table(&self, table: TableName) -> &Parts
        ensures rows { result.now ≡ table_rows self.now table }
        ensures kinds { RowsAreOf table result.now }
    {
        table_parts(self.tables.as_slice(), table)
    }

    /// How many rows the table has.
    pub fn count(&self, table: TableName) -> u64
        ensures count { result ≡ length (table_rows self.now table) }
        ensures kinds { IsOfKinds self.now }
    {
        let _ = &self.tables;
        self.table(table).len() as u64
    }

    /// The table's rows in order, as parts of which nothing is copied.
    pub fn parts(&self, table: TableName) -> &[Part]
        ensures rows { one_list result.now ≡ table_rows self.now table }
        ensures kinds { RowsAreOf table (one_list result.now) }
    {
        self.table(table).as_slice()
    }

    /// The table's rows in order, each copied to a row of its own.
    pub fn rows(&self, alloc: Global, table: TableName) -> Result<Vec<Row>, AllocError>
        ensures rows { IfOk result (λ rows. rows.items ≡ table_rows self.now table) }
        ensures kinds { IfOk result (λ rows. RowsAreOf table rows.items) }
    {
        self.table(table).to_rows(alloc)
    }

    /// Puts these rows in place of those of orders and lineitem.
    pub(crate) fn replace_sales(&mut self, orders: Parts, lineitems: Parts)
        requires orders { RowsAreOf TableName.Orders orders }
        requires lineitems { RowsAreOf TableName.Lineitem lineitems }
        ensures { self.new ≡ with_sales self.old orders lineitems }
    {
        self.tables[6] = orders;
        self.tables[7] = lineitems;
    }

    /// A share of the same rows.
    pub fn share(&self, alloc: Global) -> Result<State, AllocError>
        ensures { IfOk result (λ state. state ≡ self.now) }
    {
        let mut tables = Vec::with_capacity(alloc, 8)?;
        for table in &self.tables {
            tables.push(table.clone()?)?;
        }
        Ok(State { tables })
    }
}
