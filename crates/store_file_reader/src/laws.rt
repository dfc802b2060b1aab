//! Laws of the definition of a file's rows. Each function has an empty body: its contract is the
//! law.
ghost use Rattle.store_file_reader.specs.Cases.{Lines, Rows, Refusals, Limits, Deletes, Refreshes};
ghost use Rattle.store_file_reader.specs.Cases.{Nulls};
ghost use Rattle.store_file_reader.specs.Laws.{LinesGiveText, RowsAreThoseOfTheLines};
ghost use Rattle.store_file_reader.specs.Laws.{FirstBadLineCounts};
ghost use Rattle.store_file_reader.specs.LineLaws.{RowsSayTheirFields, FirstBadFieldCounts};

/// The lines of a text, one after the other, are the text, and a line has no LF but at its end.
pub fn lines_give_text()
    ensures { LinesGiveText }
{}

/// A file gives rows exactly where each line's fields say its row, no two rows have the same key
/// where keys must differ, and the file is within its limit.
pub fn rows_are_those_of_the_lines()
    ensures { RowsAreThoseOfTheLines }
{}

/// A file is refused exactly at the first line that can't be a row: the lines before it have rows,
/// and it reaches past the limit, or its fields say no row, or its key is an earlier row's where
/// keys must differ.
pub fn first_bad_line_counts()
    ensures { FirstBadLineCounts }
{}

/// A line gives a row exactly where bars part it into as many fields as the table has columns, and
/// each field says its value.
pub fn rows_say_their_fields()
    ensures { RowsSayTheirFields }
{}

/// A line is refused exactly where it has not as many fields, or at the first field from the left
/// that says no value.
pub fn first_bad_field_counts()
    ensures { FirstBadFieldCounts }
{}

/// Small files, computed.
pub fn cases()
    ensures lines { Lines }
    ensures rows { Rows }
    ensures refusals { Refusals }
    ensures limits { Limits }
    ensures deletes { Deletes }
    ensures refreshes { Refreshes }
    ensures nulls { Nulls }
{}
