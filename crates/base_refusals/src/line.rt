//! Refusals of a line of a table's file.
ghost use Rattle.std.specs.Prelude.{◌≡◌};
ghost use Rattle.base_refusals.specs.Line.{line_fault_number, line_fault_name};

/// What is wrong with a line of a table's file, in the order in which a line is tested.
#[derive(Clone, Copy, Debug, PartialEq, Eq, PartialOrd, Ord, Hash)]
pub enum LineFault {
    /// The line has not as many fields as the table has columns.
    FieldCount,
    /// A field of a number column spells no number.
    BadNumber,
    /// A number is outside its column's range.
    NumberTooWide,
    /// A field of a date column is no date of the years 1 to 9999.
    BadDate,
    /// A text has a byte outside 0x20 to 0x7E.
    BadText,
    /// A text is longer than its column allows.
    TextTooLong,
    /// An earlier line has the same primary key.
    DuplicateKey,
    /// The line reaches past the file's limit of bytes.
    FileTooLong,
}

impl LineFault {
    /// The number that is printed, from 1.
    pub fn number(self) -> u8
        ensures { result ≡ line_fault_number self }
    {
        match self {
            LineFault::FieldCount => 1,
            LineFault::BadNumber => 2,
            LineFault::NumberTooWide => 3,
            LineFault::BadDate => 4,
            LineFault::BadText => 5,
            LineFault::TextTooLong => 6,
            LineFault::DuplicateKey => 7,
            LineFault::FileTooLong => 8,
        }
    }

    /// The name that is printed.
    pub fn name(self) -> &'static str
        ensures { result.now ≡ line_fault_name self }
    {
        match self {
            LineFault::FieldCount => "FieldCount",
            LineFault::BadNumber => "BadNumber",
            LineFault::NumberTooWide => "NumberTooWide",
            LineFault::BadDate => "BadDate",
            LineFault::BadText => "BadText",
            LineFault::TextTooLong => "TextTooLong",
            LineFault::DuplicateKey => "DuplicateKey",
            LineFault::FileTooLong => "FileTooLong",
        }
    }
}

/// The first bad line of a file.
#[derive(Clone, Copy, Debug, PartialEq, Eq, Hash)]
pub struct LineRefusal {
    /// The line's number, from 1.
    pub line: u64,
    /// What is wrong with it.
    pub fault: LineFault,
}
