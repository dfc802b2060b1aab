//! What may happen next.
ghost use Rattle.std.specs.Prelude.{◌≡◌, map};
ghost use Rattle.std.specs.Vec.{vec_items};
ghost use Rattle.store_machine.specs.Machine.{lengths_of};

use base_schema::TableName;
use std::marker::Model;
use store_state::{Refresh, place};

/// The lengths of the pieces into which the tables of a version are cut: a list for each table, in
/// the schema's order.
#[derive(Drop)]
pub struct Cuts {
    lengths: Vec<Vec<usize>>,
}

impl Model for Cuts {
    ghost use Rattle.std.specs.Prelude.{List, map, ℕ};
    ghost use Rattle.std.specs.Vec.{vec_items};

    ghost Value = { List (List ℕ) };

    ghost view = { λ c. map vec_items c.lengths.items };
}

impl Cuts {
    /// Pieces of these lengths.
    pub fn new(lengths: Vec<Vec<usize>>) -> Cuts
        ensures { result ≡ map vec_items lengths.items }
    {
        Cuts { lengths }
    }

    /// The lengths of a table's pieces.
    pub(crate) fn of(&self, table: TableName) -> &[usize]
        ensures { result.now ≡ lengths_of self.now table }
    {
        match self.lengths.get(place(table)) {
            Some(lengths) => lengths.as_slice(),
            None => &[],
        }
    }
}

/// A step of the machine. Sessions count from 1, pieces and notes from 0. A step whose condition
/// fails changes nothing.
#[derive(Drop)]
pub enum Step {
    /// The session pins the published version, whose tables are cut so.
    Begin(u32, Cuts),
    /// The session pins the version again that it has seen, whose tables are cut so.
    Again(u32, Cuts),
    /// The session pins a version of this number in place of the one that it pins. It is at most
    /// the version that the session has seen, and fewer than 64 before it; its tables are cut so.
    Back(u32, u64, Cuts),
    /// The session scans a piece of a table of the version that it pins.
    Scan(u32, TableName, usize),
    /// The refresh is put at the end of the list.
    Offer(Refresh),
    /// The next refresh of the list is tried.
    Publish,
    /// Segments are joined, of which the machine knows nothing.
    Compact,
    /// The session drops its pin.
    Finish(u32),
    /// The session takes a note: the number of an earlier version or the published one.
    Learn(u32, u64),
}
