//! How a run ends.
ghost use Rattle.std.specs.Prelude.{◌≡◌};
ghost use Rattle.app_inputs.specs.Status.{status_number};

/// How a run ends.
#[derive(Clone, Copy, Debug, PartialEq, Eq)]
pub enum Status {
    /// All was read and written, and nothing was refused.
    Done,
    /// All was read and written, and a statement was refused.
    SomeRefused,
    /// The words are no command.
    Usage,
    /// A file is absent or not of its form.
    InputRefused,
    /// Reading failed; nothing was written.
    ReadFault,
    /// Writing failed; a part of the text from its front was written.
    WriteFault,
    /// Memory ran out; nothing, or a part of the text from its front, was written.
    OutOfMemory,
    /// A call of the disk failed; nothing was written.
    DiskFault,
}

impl Status {
    /// The program's exit status.
    pub fn number(self) -> u8
        ensures { result ≡ status_number self }
    {
        match self {
            Status::Done => 0,
            Status::SomeRefused => 1,
            Status::Usage => 2,
            Status::InputRefused => 3,
            Status::ReadFault => 4,
            Status::WriteFault => 5,
            Status::OutOfMemory => 6,
            Status::DiskFault => 7,
        }
    }
}
