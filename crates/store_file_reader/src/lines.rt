//! Whole lines, one after the other: their rows, and the first refusal.
ghost use Rattle.std.specs.Prelude.{◌≡◌, ◌+◌, ◌≤◌, [], OnOk, IfErr, IfOk, length};
ghost use Rattle.base_schema.specs.LineForm.{RowsFit, file_form};
ghost use Rattle.store_file_reader.specs.Error.{IsErrorOf};
ghost use Rattle.store_file_reader.specs.File.{add_line, refusal};

use crate::error::{FieldsError, TableError};
use crate::keyed::KeyedRows;
use crate::line::put_line;
use base_columns::{Field, Rows};
use base_refusals::{LineFault, LineRefusal};
use base_schema::DataFile;
use std::alloc::{AllocError, Global};
use std::marker::Model;

/// The rows of the lines so far, and how many bytes these lines have.
#[derive(Drop)]
pub struct Lines {
    alloc: Global,
    keyed: KeyedRows,
    limit: u64,
    bytes: u64,
}

impl Model for Lines {
    ghost use Rattle.std.specs.Prelude.{◌≤◌};
    ghost use Rattle.store_file_reader.specs.Lines.{LinesRead, lines_read};

    ghost Value = { LinesRead };

    ghost view = { λ l. lines_read l.keyed.form l.limit l.keyed.rows l.bytes };

    ghost invariant = { λ l. l.bytes ≤ l.limit };
}

impl Lines {
    /// No lines yet, of a file that may have `limit` bytes.
    pub fn new(alloc: Global, file: DataFile, limit: u64) -> Result<Lines, AllocError>
        ensures form { IfOk result (λ l. l.form ≡ file_form file) }
        ensures limit { IfOk result (λ l. l.limit ≡ limit) }
        ensures rows { IfOk result (λ l. l.so_far.rows ≡ []) }
        ensures bytes { IfOk result (λ l. l.so_far.bytes ≡ 0) }
    {
        let keyed = KeyedRows::new(alloc, file)?;
        Ok(Lines {
            alloc,
            keyed,
            limit,
            bytes: 0,
        })
    }

    /// The allocator.
    pub fn alloc(&self) -> Global {
        self.alloc
    }

    /// How many bytes may follow the lines so far.
    pub fn room(&self) -> u64
        ensures { result + self.now.so_far.bytes ≡ self.now.limit }
    {
        self.limit - self.bytes
    }

    /// The refusal of the line after those so far.
    pub fn refusal(&self, fault: LineFault) -> LineRefusal
        ensures { result ≡ refusal self.now.so_far fault }
    {
        LineRefusal {
            line: self.keyed.next_number(),
            fault,
        }
    }

    /// The rows in order.
    pub fn into_rows(self) -> Result<Rows, AllocError>
        ensures rows { IfOk result (λ rows. rows ≡ self.so_far.rows) }
        ensures fit { IfOk result (RowsFit self.form) }
    {
        let Lines {
            alloc: _,
            keyed,
            limit: _,
            bytes: _,
        } = self;
        let rows = keyed.into_rows()?;
        Ok(rows)
    }

    /// Reads one line more, which has its LF where it has one. After an error the lines are of no
    /// use.
    pub fn add(&mut self, line: &[u8]) -> Result<(), TableError>
        ensures form { self.new.form ≡ self.old.form }
        ensures limit { self.new.limit ≡ self.old.limit }
        ensures ok { OnOk result
            (add_line self.old.form self.old.limit (Ok self.old.so_far) line.now
            ≡ Ok self.new.so_far) }
        ensures bytes { OnOk result
            (self.new.so_far.bytes ≡ self.old.so_far.bytes + length line.now) }
        ensures within { self.new.so_far.bytes ≤ self.new.limit }
        ensures refused { IfErr result
            (IsErrorOf (add_line self.old.form self.old.limit (Ok self.old.so_far) line.now)) }
    {
        let mut fields = Vec::new(self.alloc);
        self.add_by(&mut fields, line)?;
        Ok(())
    }

    /// `add` with a vector for the line's fields, which keeps its room from line to line.
    pub fn add_by<'a>(
        &mut self,
        fields: &mut Vec<Field<'a>>,
        line: &'a [u8],
    ) -> Result<(), TableError>
        ensures form { self.new.form ≡ self.old.form }
        ensures limit { self.new.limit ≡ self.old.limit }
        ensures ok { OnOk result
            (add_line self.old.form self.old.limit (Ok self.old.so_far) line.now
            ≡ Ok self.new.so_far) }
        ensures bytes { OnOk result
            (self.new.so_far.bytes ≡ self.old.so_far.bytes + length line.now) }
        ensures within { self.new.so_far.bytes ≤ self.new.limit }
        ensures refused { IfErr result
            (IsErrorOf (add_line self.old.form self.old.limit (Ok self.old.so_far) line.now)) }
    {
        let size = line.len() as u64;
        if size > self.room() {
            return Err(TableError::Refused(self.refusal(LineFault::FileTooLong)));
        }
        match put_line(fields, self.keyed.columns(), line) {
            Ok(()) => (),
            Err(FieldsError::Bad(fault)) => return Err(TableError::Refused(self.refusal(fault))),
            Err(FieldsError::OutOfMemory) => return Err(TableError::OutOfMemory),
        }
        let added = self.keyed.push(fields.as_slice())?;
        if !added {
            return Err(TableError::Refused(self.refusal(LineFault::DuplicateKey)));
        }
        self.bytes += size;
        Ok(())
    }
}
