//! Where a query or a tree is shown.
use crate::line::PlanLine;
use crate::names::{NameList, Names, Row};
use crate::numbering::Numbering;
use std::alloc::{AllocError, Global};

/// Where a query or a tree is shown: its numbering, its depth, the lines so far, and the rows in
/// sight. What is put says nothing of memory: where it ran out, `finish` answers so.
pub struct Page {
    /// The numbers given.
    pub numbering: Numbering,
    /// How deep the query or the node stands in others.
    pub depth: usize,
    lines: Vec<PlanLine>,
    // The names of the rows in sight, the innermost query's last.
    rows: Vec<Names>,
    // Whether memory ran out.
    is_cut: bool,
}

// By hand, so that each place that drops one makes one call.
impl Drop for Page {
    #[inline]
    fn drop(self) {
        let Page {
            numbering: _,
            depth: _,
            lines,
            rows,
            is_cut: _,
        } = self;
        drop(lines);
        drop(rows);
    }
}

/// Puts a line that was made before those that stand from a place on.
fn insert(
    lines: &mut Vec<PlanLine>,
    place: usize,
    line: Result<PlanLine, AllocError>,
) -> Result<(), AllocError> {
    let place = place.min(lines.len());
    lines.insert(place, line?)?;
    Ok(())
}

impl Page {
    /// No lines yet.
    pub fn new(alloc: Global, numbering: Numbering) -> Page {
        Page {
            numbering,
            depth: 0,
            lines: Vec::new(alloc),
            rows: Vec::new(alloc),
            is_cut: false,
        }
    }

    /// The place of the next line.
    pub fn end(&self) -> usize {
        self.lines.len()
    }

    /// The names of the columns of the line at a place; none where there is no such line.
    pub fn columns(&self, place: usize) -> &[Vec<u8>] {
        match self.lines.get(place) {
            Some(line) => line.columns.as_slice(),
            None => &[],
        }
    }

    /// Puts a line that was made before those that stand from a place on.
    pub fn put(&mut self, place: usize, line: Result<PlanLine, AllocError>) {
        if insert(&mut self.lines, place, line).is_err() {
            self.is_cut = true;
        }
    }

    /// Names that were made; none where memory ran out.
    pub fn names(&mut self, alloc: Global, made: Result<Names, AllocError>) -> Names {
        match made {
            Ok(names) => names,
            Err(_) => {
                self.is_cut = true;
                Vec::new(alloc)
            }
        }
    }

    /// Puts a row of these names in sight.
    pub fn enter(&mut self, alloc: Global, row: NameList) {
        let names = self.names(alloc, row.finish());
        if self.rows.push(names).is_err() {
            self.is_cut = true;
        }
    }

    /// Puts a row of copies of these names in sight.
    pub fn enter_copy(&mut self, alloc: Global, names: &[Vec<u8>]) {
        let mut row = NameList::new(alloc);
        row.put_all(alloc, names);
        self.enter(alloc, row);
    }

    /// Takes the innermost row out of sight.
    pub fn leave(&mut self) {
        let _row = self.rows.pop();
    }

    /// The names of the row this many levels out.
    pub fn row(&self, level: u32) -> Row<'_> {
        let behind = (level as usize).saturating_add(1);
        match self.rows.get(self.rows.len().saturating_sub(behind)) {
            Some(names) if behind <= self.rows.len() => Row::of(names.as_slice()),
            _ => Row::of(&[]),
        }
    }

    /// The lines.
    pub fn finish(self) -> Result<Vec<PlanLine>, AllocError> {
        let Page {
            numbering: _,
            depth: _,
            lines,
            rows: _rows,
            is_cut,
        } = self;
        if is_cut {
            return Err(AllocError);
        }
        Ok(lines)
    }
}
