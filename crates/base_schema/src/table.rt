//! The eight tables: their names, and the names, kinds and primary keys of their columns.
//!
//! The columns are those of TPC Benchmark H, section 1.4.
ghost use Rattle.std.specs.Prelude.{◌≡◌, ◌<◌, map, length, IfOk, IfSome, Some};
ghost use Rattle.base_schema.specs.Kinds.{can_hold_row};
ghost use Rattle.base_schema.specs.Tables.{table_name, table_of, kinds_of, column_names_of};
ghost use Rattle.base_schema.specs.Tables.{key_columns_of, may_be_null, column_of, columns_of};

use crate::column::{ColumnKind, LineColumn};
use base_value::Value;
use std::alloc::{AllocError, Global};

/// One of the eight tables.
#[derive(Clone, Copy, Debug, PartialEq, Eq, PartialOrd, Ord, Hash)]
pub enum TableName {
    /// The regions of the world.
    Region,
    /// The nations, each of a region.
    Nation,
    /// The parts that are sold.
    Part,
    /// Who supplies parts.
    Supplier,
    /// Which supplier has which part, how many and at what cost.
    Partsupp,
    /// Who orders.
    Customer,
    /// The orders, each of a customer.
    Orders,
    /// The lines of the orders, each of a part and its supplier.
    Lineitem,
}

/// The tables in the order in which their files are read.
pub static TABLES: [TableName; 8] = [
    TableName::Region,
    TableName::Nation,
    TableName::Part,
    TableName::Supplier,
    TableName::Partsupp,
    TableName::Customer,
    TableName::Orders,
    TableName::Lineitem,
];

impl TableName {
    /// The table's name, as queries write it. Its file is this name and `.tbl`.
    pub fn name(self) -> &'static str
        ensures { result.now ≡ table_name self }
    {
        match self {
            TableName::Region => "region",
            TableName::Nation => "nation",
            TableName::Part => "part",
            TableName::Supplier => "supplier",
            TableName::Partsupp => "partsupp",
            TableName::Customer => "customer",
            TableName::Orders => "orders",
            TableName::Lineitem => "lineitem",
        }
    }

    /// The table of that name, if one has it.
    pub fn from_name(name: &[u8]) -> Option<TableName>
        ensures { result ≡ table_of name.now }
    {
        TABLES
            .iter()
            .copied()
            .find(|table| table.name().as_bytes() == name)
    }

    /// The kinds of the table's columns, from left to right.
    pub fn kinds(self) -> &'static [ColumnKind]
        ensures { result.now ≡ kinds_of self }
    {
        match self {
            TableName::Region => &REGION_KINDS,
            TableName::Nation => &NATION_KINDS,
            TableName::Part => &PART_KINDS,
            TableName::Supplier => &SUPPLIER_KINDS,
            TableName::Partsupp => &PARTSUPP_KINDS,
            TableName::Customer => &CUSTOMER_KINDS,
            TableName::Orders => &ORDERS_KINDS,
            TableName::Lineitem => &LINEITEM_KINDS,
        }
    }

    /// The names of the table's columns, from left to right.
    pub fn column_names(self) -> &'static [&'static str]
        ensures { map (λ name. name.now) result.now ≡ column_names_of self }
    {
        match self {
            TableName::Region => &REGION_NAMES,
            TableName::Nation => &NATION_NAMES,
            TableName::Part => &PART_NAMES,
            TableName::Supplier => &SUPPLIER_NAMES,
            TableName::Partsupp => &PARTSUPP_NAMES,
            TableName::Customer => &CUSTOMER_NAMES,
            TableName::Orders => &ORDERS_NAMES,
            TableName::Lineitem => &LINEITEM_NAMES,
        }
    }

    /// The places of the columns of the primary key, counted from 0.
    pub fn key_columns(self) -> &'static [usize]
        ensures { result.now ≡ key_columns_of self }
    {
        match self {
            TableName::Partsupp => &[0, 1],
            TableName::Lineitem => &[0, 3],
            _ => &[0],
        }
    }

    /// Whether the column at a place may be null: each column may that is no part of the primary
    /// key.
    pub fn may_be_null(self, place: usize) -> bool
        ensures { result ≡ may_be_null self place }
    {
        !self.key_columns().iter().any(|key| *key == place)
    }

    // The column at a place, counted from 0.
    fn column(self, place: usize) -> LineColumn
        requires { place < length (kinds_of self) }
        ensures { result ≡ column_of self place }
    {
        LineColumn {
            kind: self.kinds()[place],
            nullable: self.may_be_null(place),
        }
    }

    /// The table's columns, from left to right.
    #[tactic(auto, using(crate::proofs::Columns::columns))]
    pub fn columns(self, alloc: Global) -> Result<Vec<LineColumn>, AllocError>
        ensures { IfOk result (λ columns. columns.items ≡ columns_of self) }
    {
        let kinds = self.kinds();
        let count = kinds.len();
        let mut columns = Vec::with_capacity(alloc, count)?;
        for place in 0..count {
            columns.push(self.column(place))?;
        }
        Ok(columns)
    }

    /// Whether a row is of the table: it has a value for each column, which the column can hold.
    #[tactic(auto, using(crate::proofs::Columns::rows))]
    pub fn admits(self, row: &[Value]) -> bool
        ensures { result ≡ can_hold_row (columns_of self) row.now }
    {
        let kinds = self.kinds();
        if kinds.len() != row.len() {
            return false;
        }
        for (place, value) in row.iter().enumerate() {
            if !self.column(place).admits(value) {
                return false;
            }
        }
        true
    }
}

static REGION_KINDS: [ColumnKind; 3] = [
    ColumnKind::Key,
    ColumnKind::Text(25),
    ColumnKind::Text(152),
];

static REGION_NAMES: [&str; 3] = ["r_regionkey", "r_name", "r_comment"];

static NATION_KINDS: [ColumnKind; 4] = [
    ColumnKind::Key,
    ColumnKind::Text(25),
    ColumnKind::Key,
    ColumnKind::Text(152),
];

static NATION_NAMES: [&str; 4] = ["n_nationkey", "n_name", "n_regionkey", "n_comment"];

static PART_KINDS: [ColumnKind; 9] = [
    ColumnKind::Key,
    ColumnKind::Text(55),
    ColumnKind::Text(25),
    ColumnKind::Text(10),
    ColumnKind::Text(25),
    ColumnKind::Whole,
    ColumnKind::Text(10),
    ColumnKind::Decimal,
    ColumnKind::Text(23),
];

static PART_NAMES: [&str; 9] = [
    "p_partkey",
    "p_name",
    "p_mfgr",
    "p_brand",
    "p_type",
    "p_size",
    "p_container",
    "p_retailprice",
    "p_comment",
];

static SUPPLIER_KINDS: [ColumnKind; 7] = [
    ColumnKind::Key,
    ColumnKind::Text(25),
    ColumnKind::Text(40),
    ColumnKind::Key,
    ColumnKind::Text(15),
    ColumnKind::Decimal,
    ColumnKind::Text(101),
];

static SUPPLIER_NAMES: [&str; 7] = [
    "s_suppkey",
    "s_name",
    "s_address",
    "s_nationkey",
    "s_phone",
    "s_acctbal",
    "s_comment",
];

static PARTSUPP_KINDS: [ColumnKind; 5] = [
    ColumnKind::Key,
    ColumnKind::Key,
    ColumnKind::Whole,
    ColumnKind::Decimal,
    ColumnKind::Text(199),
];

static PARTSUPP_NAMES: [&str; 5] = [
    "ps_partkey",
    "ps_suppkey",
    "ps_availqty",
    "ps_supplycost",
    "ps_comment",
];

static CUSTOMER_KINDS: [ColumnKind; 8] = [
    ColumnKind::Key,
    ColumnKind::Text(25),
    ColumnKind::Text(40),
    ColumnKind::Key,
    ColumnKind::Text(15),
    ColumnKind::Decimal,
    ColumnKind::Text(10),
    ColumnKind::Text(117),
];

static CUSTOMER_NAMES: [&str; 8] = [
    "c_custkey",
    "c_name",
    "c_address",
    "c_nationkey",
    "c_phone",
    "c_acctbal",
    "c_mktsegment",
    "c_comment",
];

static ORDERS_KINDS: [ColumnKind; 9] = [
    ColumnKind::Key,
    ColumnKind::Key,
    ColumnKind::Text(1),
    ColumnKind::Decimal,
    ColumnKind::Date,
    ColumnKind::Text(15),
    ColumnKind::Text(15),
    ColumnKind::Whole,
    ColumnKind::Text(79),
];

static ORDERS_NAMES: [&str; 9] = [
    "o_orderkey",
    "o_custkey",
    "o_orderstatus",
    "o_totalprice",
    "o_orderdate",
    "o_orderpriority",
    "o_clerk",
    "o_shippriority",
    "o_comment",
];

static LINEITEM_KINDS: [ColumnKind; 16] = [
    ColumnKind::Key,
    ColumnKind::Key,
    ColumnKind::Key,
    ColumnKind::Whole,
    ColumnKind::Decimal,
    ColumnKind::Decimal,
    ColumnKind::Decimal,
    ColumnKind::Decimal,
    ColumnKind::Text(1),
    ColumnKind::Text(1),
    ColumnKind::Date,
    ColumnKind::Date,
    ColumnKind::Date,
    ColumnKind::Text(25),
    ColumnKind::Text(10),
    ColumnKind::Text(44),
];

static LINEITEM_NAMES: [&str; 16] = [
    "l_orderkey",
    "l_partkey",
    "l_suppkey",
    "l_linenumber",
    "l_quantity",
    "l_extendedprice",
    "l_discount",
    "l_tax",
    "l_returnflag",
    "l_linestatus",
    "l_shipdate",
    "l_commitdate",
    "l_receiptdate",
    "l_shipinstruct",
    "l_shipmode",
    "l_comment",
];
