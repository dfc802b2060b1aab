//! Numbers of nodes, and names of the columns of tables that are scanned more than once.
use crate::names::NameList;
use crate::writer::Piece;
use base_schema::TableName;
use std::alloc::Global;

/// The numbers and names that were given so far. A query or a tree is put twice: the second time it
/// is known which tables are scanned more than once.
#[derive(Clone, Copy)]
pub struct Numbering {
    // How often each table is scanned, by the tables' numbers, where that is known.
    scans: [usize; 8],
    // The scans so far.
    named: [usize; 8],
    // The number of the next node.
    next: usize,
}

impl Numbering {
    /// No number and no scan yet.
    pub fn new(first: usize) -> Numbering {
        Numbering {
            scans: [0; 8],
            named: [0; 8],
            next: first,
        }
    }

    /// The same from the start, once all scans were met.
    pub fn again(self, first: usize) -> Numbering {
        let scans = self.named;
        Numbering {
            scans,
            named: [0; 8],
            next: first,
        }
    }

    /// The next number.
    pub fn number(&mut self) -> usize {
        let number = self.next;
        self.next = number.saturating_add(1);
        number
    }

    /// Which scan of a table the next one is, where there are others.
    pub fn scan(&mut self, table: TableName) -> Option<usize> {
        let at = table as usize;
        if at >= 8 {
            return None;
        }
        let number = self.named[at].saturating_add(1);
        self.named[at] = number;
        if self.scans[at] > 1 {
            Some(number)
        } else {
            None
        }
    }
}

/// Appends the names of a table's columns in a scan: `n_name`, or `nation2.n_name` in the second
/// one of several.
pub fn put_columns(alloc: Global, all: &mut NameList, table: TableName, scan: Option<usize>) {
    for column in table.column_names() {
        match scan {
            None => all.put(alloc, column.as_bytes()),
            Some(number) => all.put_made(
                alloc,
                &[
                    Piece::Text(table.name().as_bytes()),
                    Piece::Number(number),
                    Piece::Text(b"."),
                    Piece::Text(column.as_bytes()),
                ],
            ),
        }
    }
}
