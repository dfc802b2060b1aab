//! Names of columns, and lists of them.
use crate::writer::{Piece, TextWriter};
use std::alloc::{AllocError, Global};

/// The names of a row's columns, in their order.
pub type Names = Vec<Vec<u8>>;

/// Names so far. An append says nothing of memory: where it ran out, `finish` answers so.
pub struct NameList {
    names: Names,
    // Whether memory ran out at an append.
    is_cut: bool,
}

// By hand, so that each place that drops one makes one call.
impl Drop for NameList {
    #[inline]
    fn drop(self) {
        let NameList { names, is_cut: _ } = self;
        drop(names);
    }
}

/// Appends a name that was made.
fn push_made(names: &mut Names, name: Result<Vec<u8>, AllocError>) -> Result<(), AllocError> {
    names.push(name?)?;
    Ok(())
}

impl NameList {
    /// No names.
    pub fn new(alloc: Global) -> NameList {
        NameList {
            names: Vec::new(alloc),
            is_cut: false,
        }
    }

    /// The names so far.
    pub fn names(&self) -> &[Vec<u8>] {
        self.names.as_slice()
    }

    /// Appends a name that was made.
    pub fn give(&mut self, name: Result<Vec<u8>, AllocError>) {
        if push_made(&mut self.names, name).is_err() {
            self.is_cut = true;
        }
    }

    /// Appends names that were made.
    pub fn give_all(&mut self, names: Names) {
        let mut names = names;
        if self.names.append(&mut names).is_err() {
            self.is_cut = true;
        }
    }

    /// Appends a name of these pieces.
    pub fn put_made(&mut self, alloc: Global, pieces: &[Piece<'_>]) {
        let mut name = TextWriter::new(alloc);
        name.put_all(pieces);
        self.give(name.finish());
    }

    /// Appends a copy of a name.
    pub fn put(&mut self, alloc: Global, name: &[u8]) {
        self.give(Vec::from_slice(alloc, name));
    }

    /// Appends copies of names.
    pub fn put_all(&mut self, alloc: Global, names: &[Vec<u8>]) {
        for name in names {
            self.put(alloc, name.as_slice());
        }
    }

    /// The names.
    pub fn finish(self) -> Result<Names, AllocError> {
        let NameList { names, is_cut } = self;
        if is_cut {
            return Err(AllocError);
        }
        Ok(names)
    }
}

/// The names of the columns that an expression reads: those of a domain row, behind them those of a
/// left row, and behind these those of a right one.
#[derive(Clone, Copy)]
pub struct Row<'n> {
    /// The names of the domain row.
    pub domain: &'n [Vec<u8>],
    /// Those of the left row, or of the only one.
    pub left: &'n [Vec<u8>],
    /// Those of the right row.
    pub right: &'n [Vec<u8>],
}

impl<'n> Row<'n> {
    /// One row of these names.
    pub fn of(names: &'n [Vec<u8>]) -> Row<'n> {
        Row {
            domain: &[],
            left: names,
            right: &[],
        }
    }

    /// The name at a place; `?` where there is no such place.
    pub fn name(&self, place: u32) -> &'n [u8] {
        let place = place as usize;
        let (first, second) = (self.domain.len(), self.left.len());
        let name = if place < first {
            self.domain.get(place)
        } else if place - first < second {
            self.left.get(place - first)
        } else {
            self.right.get(place - first - second)
        };
        match name {
            Some(name) => name.as_slice(),
            None => b"?".as_slice(),
        }
    }
}

/// The names from a place on.
pub fn rest_from(names: &[Vec<u8>], start: usize) -> &[Vec<u8>] {
    &names[start.min(names.len())..]
}
