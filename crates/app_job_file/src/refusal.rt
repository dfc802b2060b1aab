//! Why a job's file is refused.
ghost use Rattle.std.specs.Prelude.{◌≡◌};
ghost use Rattle.app_job_file.specs.Files.{job_refusal_name, job_refusal_number};

/// Why a job's file is refused. Of one line the refusal of the least number counts.
#[derive(Clone, Copy, Debug, PartialEq, Eq)]
pub enum JobRefusal {
    /// The line is of none of the forms, asks for a second journal, or
    /// names a kept view by a word that is reserved or is no name.
    BadLine,
    /// The line asks for a refresh before the sessions after one beside them, tried or sent.
    LateBefore,
    /// The line asks for the 65th session, the 1025th refresh or the 17th kept view.
    TooMany,
    /// No line asks for a session.
    NoSession,
    /// The file is longer than 1048576 bytes.
    TooLong,
    /// The line asks for a refresh that is sent after one that is tried beside the sessions, or the
    /// other way round.
    MixedSenders,
    /// The script that the line names has no query whose rows can be kept.
    BadKeep,
    /// The line asks for a kept view of a name that one above has, or a table.
    KeepTwice,
}

impl JobRefusal {
    /// The number that is printed, from 1 to 8.
    pub fn number(self) -> u8
        ensures { result ≡ job_refusal_number self }
    {
        match self {
            JobRefusal::BadLine => 1,
            JobRefusal::LateBefore => 2,
            JobRefusal::TooMany => 3,
            JobRefusal::NoSession => 4,
            JobRefusal::TooLong => 5,
            JobRefusal::MixedSenders => 6,
            JobRefusal::BadKeep => 7,
            JobRefusal::KeepTwice => 8,
        }
    }

    /// The name that is printed.
    pub fn name(self) -> &'static str
        ensures { result.now ≡ job_refusal_name self }
    {
        match self {
            JobRefusal::BadLine => "BadLine",
            JobRefusal::LateBefore => "LateBefore",
            JobRefusal::TooMany => "TooMany",
            JobRefusal::NoSession => "NoSession",
            JobRefusal::TooLong => "TooLong",
            JobRefusal::MixedSenders => "MixedSenders",
            JobRefusal::BadKeep => "BadKeep",
            JobRefusal::KeepTwice => "KeepTwice",
        }
    }
}

/// A refusal and its line.
#[derive(Clone, Copy, Debug, PartialEq, Eq)]
pub struct RefusedLine {
    /// Why the job is refused.
    pub refusal: JobRefusal,
    /// The line, counted from 1; 0 for the whole file.
    pub line: usize,
}
