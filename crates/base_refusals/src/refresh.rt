//! Refusals of a refresh.
ghost use Rattle.std.specs.Prelude.{◌≡◌, ◌≤◌};
ghost use Rattle.base_refusals.specs.Refresh.{cause_name, cause_number, file_prefix};

use crate::line::LineRefusal;

/// One of the three files of a refresh set.
#[derive(Clone, Copy, Debug, PartialEq, Eq, PartialOrd, Ord, Hash)]
pub enum RefreshFile {
    /// The orders that the set inserts.
    Orders,
    /// The lineitems that the set inserts.
    Lineitem,
    /// The keys of the orders that the set deletes.
    Delete,
}

impl RefreshFile {
    /// What stands before the set's number in the file's name. Nothing follows the number.
    pub fn prefix(self) -> &'static str
        ensures { result.now ≡ file_prefix self }
    {
        match self {
            RefreshFile::Orders => "orders.tbl.u",
            RefreshFile::Lineitem => "lineitem.tbl.u",
            RefreshFile::Delete => "delete.",
        }
    }
}

/// Why a refresh is refused, in the order of the numbers.
#[derive(Clone, Copy, Debug, PartialEq, Eq, Hash)]
pub enum Cause {
    /// The state has an order with this key of an inserted order.
    OrderExists(i64),
    /// An earlier order of the file has this key.
    OrderTwice(i64),
    /// An earlier lineitem of the file has this order's key and line number.
    LineTwice(i64, i64),
    /// No order of the set has this order's key of a lineitem.
    StrayLine(i64),
    /// No order of the state has this key, which is to be deleted.
    UnknownOrder(i64),
    /// This key stands earlier in the file of keys to be deleted.
    KeyTwice(i64),
    /// A line of this file of the set of this number is bad.
    Malformed(RefreshFile, u32, LineRefusal),
    /// The state has a lineitem with this order's key and line number.
    LineExists(i64, i64),
}

impl Cause {
    /// The cause's number, from 1 to 8. A statement's refusal prints 40 more.
    pub fn number(self) -> u8
        ensures number { result ≡ cause_number self }
        ensures most { result ≤ 8 }
    {
        match self {
            Cause::OrderExists(_) => 1,
            Cause::OrderTwice(_) => 2,
            Cause::LineTwice(_, _) => 3,
            Cause::StrayLine(_) => 4,
            Cause::UnknownOrder(_) => 5,
            Cause::KeyTwice(_) => 6,
            Cause::Malformed(_, _, _) => 7,
            Cause::LineExists(_, _) => 8,
        }
    }

    /// The name that is printed.
    pub fn name(self) -> &'static str
        ensures { result.now ≡ cause_name self }
    {
        match self {
            Cause::OrderExists(_) => "OrderExists",
            Cause::OrderTwice(_) => "OrderTwice",
            Cause::LineTwice(_, _) => "LineTwice",
            Cause::StrayLine(_) => "StrayLine",
            Cause::UnknownOrder(_) => "UnknownOrder",
            Cause::KeyTwice(_) => "KeyTwice",
            Cause::Malformed(_, _, _) => "Malformed",
            Cause::LineExists(_, _) => "LineExists",
        }
    }
}
