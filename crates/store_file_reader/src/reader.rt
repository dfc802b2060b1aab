//! A reader that is fed the pieces of a file.
ghost use Rattle.std.specs.Prelude.{◌≡◌, ◌+◌, ◌≤◌, ℕ, List, ◌++◌, [], length, true, Some, None};
ghost use Rattle.std.specs.Prelude.{IfOk, IfErr, OnOk, OnErr, MatchResult};
ghost use Rattle.base_schema.specs.LineForm.{RowsFit, file_form};
ghost use Rattle.base_refusals.specs.declared.line.LineRefusal.{LineRefusal as LineRefused};
ghost use Rattle.store_file_reader.specs.declared.error.TableError.{TableError};
ghost use Rattle.store_file_reader.specs.Error.{IsErrorOf};
ghost use Rattle.store_file_reader.specs.File.{add_line, only_rows};
ghost use Rattle.store_file_reader.specs.Reading.{is_unended, lines_result};
ghost use Rattle.store_file_reader.specs.Steps.{SameResults, IsTooLong, IsErrorOfAll};

use crate::error::TableError;
use crate::line::place_of;
use crate::lines::Lines;
use base_columns::{Field, Rows};
use base_refusals::LineFault;
use base_schema::DataFile;
use std::alloc::{AllocError, Global};
use std::marker::Model;

/// The most bytes that a file may have.
pub const MOST_BYTES: u64 = 1 << 32;

// Reads the line that ends with these bytes, its first part having come before. The LF is the last
// byte.
fn end_line<'a>(
    lines: &mut Lines,
    fields: &mut Vec<Field<'a>>,
    rest: &mut Vec<u8>,
    end: &'a [u8],
) -> Result<(), TableError>
    ensures form { lines.new.form ≡ lines.old.form }
    ensures limit { lines.new.limit ≡ lines.old.limit }
    ensures ok { OnOk result
        (add_line lines.old.form lines.old.limit (Ok lines.old.so_far) (rest.old.items ++ end.now)
        ≡ Ok lines.new.so_far) }
    ensures rest { OnOk result (rest.new.items ≡ []) }
    ensures bytes { OnOk result
        (lines.new.so_far.bytes ≡ lines.old.so_far.bytes + length rest.old.items + length end.now) }
    ensures within { lines.old.so_far.bytes ≤ lines.old.limit
        → lines.new.so_far.bytes ≤ lines.new.limit }
    ensures refused { IfErr result
        (IsErrorOf (add_line lines.old.form lines.old.limit (Ok lines.old.so_far)
        (rest.old.items ++ end.now))) }
{
    if rest.is_empty() {
        lines.add_by(fields, end)?;
        return Ok(());
    }
    rest.extend_from_slice(end)?;
    lines.add(rest.as_slice())?;
    rest.clear();
    Ok(())
}

// Keeps the first part of a line that has not ended yet.
fn keep_rest(lines: &Lines, rest: &mut Vec<u8>, part: &[u8]) -> Result<(), TableError>
    requires { lines.now.so_far.bytes + length rest.old.items ≤ lines.now.limit }
    ensures ok { OnOk result (rest.new.items ≡ rest.old.items ++ part.now) }
    ensures within { OnOk result
        (lines.now.so_far.bytes + length (rest.old.items ++ part.now) ≤ lines.now.limit) }
    ensures refused { IfErr result (IsTooLong lines.now (rest.old.items ++ part.now)) }
{
    if part.len() as u64 > lines.room() - rest.len() as u64 {
        return Err(TableError::Refused(lines.refusal(LineFault::FileTooLong)));
    }
    rest.extend_from_slice(part)?;
    Ok(())
}

// Reads a piece: the lines that end in it, and the first part of one that does not.
#[tactic(auto, using(crate::proofs::PieceSteps::pieces))]
fn read_piece(lines: &mut Lines, rest: &mut Vec<u8>, piece: &[u8]) -> Result<(), TableError>
    requires unended { is_unended rest.old.items ≡ true }
    requires within { lines.old.so_far.bytes + length rest.old.items ≤ lines.old.limit }
    ensures form { lines.new.form ≡ lines.old.form }
    ensures limit { lines.new.limit ≡ lines.old.limit }
    ensures ok { OnOk result
        (SameResults lines.new rest.new.items lines.old (rest.old.items ++ piece.now)) }
    ensures unended { OnOk result (is_unended rest.new.items ≡ true) }
    ensures fed { OnOk result
        (lines.new.so_far.bytes + length rest.new.items
        ≡ lines.old.so_far.bytes + length rest.old.items + length piece.now) }
    ensures within { OnOk result
        (lines.new.so_far.bytes + length rest.new.items ≤ lines.new.limit) }
    ensures bytes { lines.new.so_far.bytes ≤ lines.new.limit }
    ensures refused { IfErr result (IsErrorOfAll lines.old (rest.old.items ++ piece.now)) }
{
    let mut fields = Vec::new(lines.alloc());
    let mut left = piece;
    'lines: while let Some(end) = place_of(b'\n', left) {
        let (line, more) = left.split_at(end + 1);
        end_line(lines, &mut fields, rest, line)?;
        left = more;
    }
    keep_rest(lines, rest, left)?;
    Ok(())
}

// The rows of all lines, of which the last one is what is left, if anything is.
#[tactic(auto, using(crate::proofs::Answers::ends))]
fn last_rows(mut lines: Lines, rest: &[u8]) -> Result<Rows, TableError>
    requires { is_unended rest.now ≡ true }
    ensures rows { MatchResult result (λ rows. only_rows (lines_result lines rest.now) ≡ Ok rows)
        (IsErrorOf (only_rows (lines_result lines rest.now))) }
    ensures fit { IfOk result (RowsFit lines.form) }
{
    if rest.is_empty() {
        let rows = lines.into_rows()?;
        return Ok(rows);
    }
    lines.add(rest)?;
    let rows = lines.into_rows()?;
    Ok(rows)
}

/// A reader of a file, which is fed the file's pieces in order, however they are cut. It keeps the
/// rows of the lines that have ended and the bytes of the line that has not. Once it has refused a
/// line, or memory ran out, it answers that again.
pub struct FileReader {
    lines: Lines,
    rest: Vec<u8>,
    error: Option<TableError>,
}

impl Drop for FileReader {
    #[inline]
    fn drop(self) {
        let FileReader { lines, rest, error } = self;
        drop(lines);
        drop(rest);
        drop(error);
    }
}

impl Model for FileReader {
    ghost use Rattle.std.specs.Prelude.{◌≡◌, ◌+◌, ◌≤◌, length, true};
    ghost use Rattle.store_file_reader.specs.Reading.{Reading, is_unended, reading};

    ghost Value = { Reading };

    ghost view = { λ r. reading r.lines r.rest.items r.error };

    ghost invariant = { λ r. (is_unended r.rest.items ≡ true)
        × (r.lines.so_far.bytes + length r.rest.items ≤ r.lines.limit) };
}

#[tactic(auto, using(crate::proofs::Answers::answers))]
impl FileReader {
    ghost use Rattle.store_file_reader.specs.Reading.{HasRead, RefusesAll, bytes_fed, rows_for};

    /// A reader of a file of at most `limit` bytes.
    pub fn new(alloc: Global, file: DataFile, limit: u64) -> Result<FileReader, AllocError>
        ensures form { IfOk result (λ r. r.lines.form ≡ file_form file) }
        ensures limit { IfOk result (λ r. r.lines.limit ≡ limit) }
        ensures bytes { IfOk result (λ r. bytes_fed r ≡ 0) }
        ensures started { IfOk result (HasRead []) }
    {
        let lines = Lines::new(alloc, file, limit)?;
        Ok(FileReader {
            lines,
            rest: Vec::new(alloc),
            error: None,
        })
    }

    /// Reads the file's next piece: the lines that end in it give rows, and a bad one among them is
    /// refused.
    pub fn feed(&mut self, piece: &[u8]) -> Result<(), TableError>
        ensures form { self.new.lines.form ≡ self.old.lines.form }
        ensures limit { self.new.lines.limit ≡ self.old.lines.limit }
        ensures read { OnOk result
            ((text : List ℕ) → HasRead text self.old → HasRead (text ++ piece.now) self.new) }
        ensures bytes { OnOk result (bytes_fed self.new ≡ bytes_fed self.old + length piece.now) }
        ensures within { OnOk result (bytes_fed self.new ≤ self.new.lines.limit) }
        ensures unended { OnOk result (is_unended self.new.rest ≡ true) }
        ensures refused { (first : LineRefused) → result ≡ Err (TableError.Refused first)
            → (text : List ℕ) → HasRead text self.old
            → RefusesAll self.old.lines.form self.old.lines.limit (text ++ piece.now) first }
        ensures going { OnOk result (self.new.error ≡ None) }
        ensures stopped { IfErr result (λ error. self.new.error ≡ Some error) }
        ensures again { (error : TableError) → self.old.error ≡ Some error → result ≡ Err error }
        ensures kept { (error : TableError) → self.old.error ≡ Some error → self.new ≡ self.old }
    {
        if let Some(error) = self.error {
            return Err(error);
        }
        match read_piece(&mut self.lines, &mut self.rest, piece) {
            Ok(()) => Ok(()),
            Err(error) => {
                self.rest.clear();
                self.error = Some(error);
                Err(error)
            }
        }
    }

    /// The rows of the whole file.
    pub fn finish(self) -> Result<Rows, TableError>
        ensures rows { (text : List ℕ) → HasRead text self
            → MatchResult result (λ rows. rows_for self text ≡ Ok rows)
            (IsErrorOf (rows_for self text)) }
        ensures fit { IfOk result (RowsFit self.lines.form) }
        ensures again { (error : TableError) → self.error ≡ Some error → result ≡ Err error }
    {
        let FileReader { lines, rest, error } = self;
        if let Some(error) = error {
            return Err(error);
        }
        let rows = last_rows(lines, rest.as_slice())?;
        Ok(rows)
    }
}
