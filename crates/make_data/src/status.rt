//! How a run ended.
ghost use Rattle.std.specs.Prelude.{◌≡◌};
ghost use Rattle.make_data.specs.Status.{status_number};

/// How a run ended.
#[derive(Clone, Copy, Debug, PartialEq, Eq)]
pub enum Status {
    /// All files were written.
    Done,
    /// The words ask for no data, and the usage line was printed.
    Usage,
    /// A file or the usage line could not be written. The file may be there in part, and those
    /// after it as they were.
    WriteFault,
    /// Memory was refused.
    OutOfMemory,
}

impl Status {
    /// The exit status.
    pub fn number(self) -> u8
        ensures { result ≡ status_number self }
    {
        match self {
            Status::Done => 0,
            Status::Usage => 2,
            Status::WriteFault => 5,
            Status::OutOfMemory => 6,
        }
    }
}
