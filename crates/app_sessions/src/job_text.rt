//! The text of a job.
ghost use Rattle.std.specs.Prelude.{◌≡◌, ℕ, ◌+◌, ◌<◌, ◌^◌, ◌&&◌, [], ◌∷◌, ◌++◌, true, ⊤, IfOk};
ghost use Rattle.std.specs.Prelude.{OnOk};
ghost use Rattle.std.specs.Prelude.{length};
ghost use Rattle.app_sessions.specs.Gathered.{Gathers, HavePlaces};
ghost use Rattle.app_sessions.specs.Jobs.{session_head};
ghost use Rattle.app_sessions.specs.Sessions.{course_of};
ghost use Rattle.app_sessions.specs.Workers.{next_place};

use crate::session::Session;
use crate::worker::Worker;
use itoa::Buffer;
use std::alloc::{AllocError, Global};
use std::marker::Model;
use store_snapshots::Entry;

/// The text of a job, the versions over which the statements of each session began, and whether no
/// line is a refusal.
#[derive(Drop)]
pub struct JobText {
    text: Vec<u8>,
    versions: Vec<Vec<u64>>,
    is_clean: bool,
}

impl Model for JobText {
    ghost use Rattle.std.specs.Prelude.{map};
    ghost use Rattle.std.specs.Vec.{vec_items};
    ghost use Rattle.app_sessions.specs.Jobs.{JobAnswer};

    ghost Value = { JobAnswer };

    ghost view = { λ t. record {
      text = t.text.items;
      versions = map vec_items t.versions.items;
      is_clean = t.is_clean;
    } };
}

impl JobText {
    ghost use Rattle.app_sessions.specs.Jobs.{JobAnswer};
    ghost use Rattle.std.specs.Prelude.{option_map, slice_get};

    /// No text yet.
    fn new(alloc: Global) -> JobText
        ensures { result ≡ record { text = []; versions = []; is_clean = true } }
    {
        JobText {
            text: Vec::new(alloc),
            versions: Vec::new(alloc),
            is_clean: true,
        }
    }

    /// The bytes of the text.
    pub fn text(&self) -> &[u8]
        ensures { result.now ≡ self.now.text }
    {
        self.text.as_slice()
    }

    /// The bytes of the text, which is given up.
    pub fn into_text(self) -> Vec<u8>
        ensures { result.items ≡ self.text }
    {
        self.text
    }

    /// The versions over which the statements of a session began, which is counted from 0.
    pub fn versions(&self, session: usize) -> Option<&[u64]>
        ensures { option_map (λ v. v.now) result ≡ slice_get self.now.versions session }
    {
        self.versions
            .get(session)
            .map(|versions| versions.as_slice())
    }

    /// Whether no line of the text is a refusal.
    pub fn is_clean(&self) -> bool
        ensures { result ≡ self.now.is_clean }
    {
        self.is_clean
    }

    /// Appends the line before a session.
    fn push_head(&mut self, number: u64) -> Result<(), AllocError>
        ensures text { OnOk result (self.new.text ≡ self.old.text ++ session_head number) }
        ensures versions { self.new.versions ≡ self.old.versions }
        ensures clean { self.new.is_clean ≡ self.old.is_clean }
    {
        let mut buffer = Buffer::new();
        self.text.extend_from_slice(b"session ")?;
        self.text
            .extend_from_slice(buffer.format(number).as_bytes())?;
        self.text.push(b'\n')?;
        Ok(())
    }

    /// Appends the session of this number.
    fn put(&mut self, alloc: Global, number: u64, session: &Session) -> Result<(), AllocError>
        ensures text { OnOk result (self.new.text
            ≡ self.old.text ++ (session_head number ++ (course_of session.now).text)) }
        ensures versions { OnOk result (self.new.versions
            ≡ self.old.versions ++ (course_of session.now).versions ∷ []) }
        ensures clean { OnOk result (self.new.is_clean
            ≡ (self.old.is_clean && (course_of session.now).is_clean)) }
    {
        let versions = Vec::from_slice(alloc, session.versions())?;
        self.push_head(number)?;
        self.text.extend_from_slice(session.text())?;
        self.versions.push(versions)?;
        self.is_clean = self.is_clean && session.is_clean();
        Ok(())
    }

    /// Appends the lines after the sessions, and whether none of them is a refusal.
    pub(crate) fn close(&mut self, lines: &[u8], is_clean: bool) -> Result<(), AllocError>
        ensures text { OnOk result (self.new.text ≡ self.old.text ++ lines.now) }
        ensures versions { OnOk result (self.new.versions ≡ self.old.versions) }
        ensures clean { OnOk result (self.new.is_clean ≡ (self.old.is_clean && is_clean)) }
    {
        self.text.extend_from_slice(lines)?;
        self.is_clean = self.is_clean && is_clean;
        Ok(())
    }
}

/// The place of the session after one, in turn among `count` workers.
fn place_after(turn: usize, round: usize, count: usize) -> (usize, usize)
    requires turn { turn < count }
    requires round { round + 1 < 2 ^ 64 }
    ensures { result ≡ next_place count (turn, round) }
{
    if turn + 1 < count {
        (turn + 1, round)
    } else {
        (0, round + 1)
    }
}

/// The text of the sessions, in the order in which they were assigned.
pub(crate) fn gather<E: Entry + Drop>(
    alloc: Global,
    workers: &[Worker<E>],
    count: usize,
) -> Result<JobText, AllocError>
    requires { HavePlaces workers.now count }
    ensures { IfOk result (Gathers workers.now count) }
{
    let mut text = JobText::new(alloc);
    let mut turn = 0;
    let mut round = 0;
    'gathering: for k in 0..count {
        let worker = &workers[turn];
        text.put(alloc, (k as u64).saturating_add(1), &worker.sessions[round])?;
        (turn, round) = place_after(turn, round, workers.len());
    }
    Ok(text)
}
