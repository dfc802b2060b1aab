//! A session: a script's statements in their order, with views of their own, and the text so far.
ghost use Rattle.std.specs.Prelude.{◌≡◌, ◌<◌, ℕ, length, IfOk, IsTrue, OnOk, Result, Err, Some};
ghost use Rattle.std.specs.Prelude.{is_none, true};
ghost use Rattle.base_refusals.specs.declared.refresh.Cause.{Cause};
ghost use Rattle.store_versions.specs.Trials.{version_of};
ghost use Rattle.app_sessions.specs.Outcomes.{is_printable, outcome_of, refreshed};
ghost use Rattle.app_sessions.specs.Sessions.{IsRefresh};
ghost use Rattle.app_sessions.specs.Versions.{states_of};
ghost use Rattle.app_sessions.specs.Views.{views_after};

use crate::expansion::expand;
use crate::outcome::Outcome;
use crate::query::query_outcome;
use crate::runs::run_outcome;
use crate::text::outcome_text;
use crate::versions::{printed_version, version_named};
use crate::views::{drop_view, make_view};
use base_refusals::{Cause, Refusal};
use plan_planner::SessionViews;
use sql_ast::{RefreshKind, Statement};
use sqlite_items::Items;
use std::alloc::{AllocError, Global};
use std::thread::Threads;
use store_snapshots::Snapshot;
use store_versions::Attachment;

/// What a turn of a session gave.
#[derive(Clone, Copy, Debug, PartialEq, Eq)]
pub enum Turn {
    /// The next statement has its lines.
    Answered,
    /// The next statement is this refresh, whose result is handed in by `hand_in`.
    AskedRefresh(RefreshKind, u32),
    /// No statement is left.
    Ended,
}

/// The statements of a script in their order, with views of their own, and the text so far. After
/// memory ran out, each turn answers that again.
pub struct Session {
    alloc: Global,
    steps: Items<Statement>,
    answered: usize,
    versions: Vec<u64>,
    first_views: SessionViews,
    views: SessionViews,
    text: Vec<u8>,
    is_clean: bool,
    shows_rows: bool,
    is_lost: bool,
}

impl Drop for Session {
    #[inline]
    fn drop(self) {
        let Session {
            alloc: _,
            steps,
            answered: _,
            versions,
            first_views,
            views,
            text,
            is_clean: _,
            shows_rows: _,
            is_lost: _,
        } = self;
        drop(steps);
        drop(versions);
        drop(first_views);
        drop(views);
        drop(text);
    }
}

/// What comes of a statement that is no refresh, and what it does to the views.
fn outcome_of<R: Threads + Sync, A: Attachment>(
    rt: &R,
    alloc: Global,
    statement: &Statement,
    views: &mut SessionViews,
    snapshot: &Snapshot<A>,
) -> Result<Outcome, AllocError>
    requires { IsRefresh (Some statement.now) → ⊥ }
    ensures outcome { IfOk result (λ o. (tried : Result ℕ Cause) → o
        ≡ outcome_of (record {
          version = version_of snapshot.now;
          tables = states_of snapshot.now;
          tried = tried;
        }) views.old statement.now) }
    ensures views { OnOk result (views.new ≡ views_after views.old statement.now) }
    ensures printable { IfOk result (λ o. IsTrue (is_printable o)) }
{
    match statement {
        Statement::Query(query) => query_outcome(rt, alloc, query, views, snapshot),
        Statement::CreateView(name, names, query) => {
            make_view(alloc, views, name, names.as_slice(), query)
        }
        Statement::DropView(name) => Ok(drop_view(views, name)),
        Statement::Refresh(_, _) => unreachable!(),
        Statement::Run(number, values) => run_outcome(alloc, *number, values.as_slice()),
    }
}

/// What comes of a refresh.
fn refresh_outcome(tried: Result<u64, Cause>) -> Outcome
    ensures outcome { result ≡ refreshed tried }
    ensures printable { IsTrue (is_printable result) }
{
    match tried {
        Ok(after) => Outcome::Accepted(after),
        Err(cause) => Outcome::Refused(Refusal::Refresh(cause)),
    }
}

impl Session {
    ghost use Rattle.app_sessions.specs.Sessions.{Begins, Goes, HandsIn, Takes, course_of};
    ghost use Rattle.app_sessions.specs.Sessions.{next_of, with_lines};

    /// A session of these statements, with a run's in its place, that begins with these views. Where
    /// `shows_rows` is false, its text leaves out the rows of answers.
    pub fn new(
        alloc: Global,
        statements: Items<Statement>,
        shows_rows: bool,
        views: SessionViews,
    ) -> Result<Session, AllocError>
        ensures { IfOk result (λ s. Begins statements shows_rows views (course_of s)) }
    {
        let first_views = views.copy(alloc)?;
        let steps = expand(alloc, statements)?;
        Ok(Session {
            alloc,
            steps,
            answered: 0,
            versions: Vec::new(alloc),
            first_views,
            views,
            text: Vec::new(alloc),
            is_clean: true,
            shows_rows,
            is_lost: false,
        })
    }

    /// The statements, each run replaced by those that it stands for.
    pub fn steps(&self) -> &[Statement]
        ensures { result.now ≡ (course_of self.now).steps }
    {
        self.steps.as_slice()
    }

    /// Whether each statement had its turn.
    pub fn is_ended(&self) -> bool
        ensures { result ≡ is_none (next_of (course_of self.now)) }
    {
        self.steps.get(self.answered).is_none()
    }

    /// The versions over which the statements began that had their turn.
    pub fn versions(&self) -> &[u64]
        ensures { result.now ≡ (course_of self.now).versions }
    {
        self.versions.as_slice()
    }

    /// The text of the statements that had their turn.
    pub fn text(&self) -> &[u8]
        ensures { result.now ≡ (course_of self.now).text }
    {
        self.text.as_slice()
    }

    /// Whether no line of the text is a refusal.
    pub fn is_clean(&self) -> bool
        ensures { result ≡ (course_of self.now).is_clean }
    {
        self.is_clean
    }

    /// Appends the lines of the next statement, whose turn is over. It began over a version and
    /// names one or none.
    fn put(&mut self, begun: u64, named: Option<u32>, outcome: &Outcome) -> Result<(), AllocError>
        requires within { self.old.answered < length self.old.steps }
        requires printable { IsTrue (is_printable outcome.now) }
        ensures { OnOk result (course_of self.new
            ≡ with_lines (course_of self.old) begun named outcome.now) }
    {
        let count = self.steps.len();
        prove!(self.answered < count);
        let mut lines = outcome_text(
            self.alloc,
            self.shows_rows,
            self.answered as u64 + 1,
            printed_version(begun, named, outcome),
            outcome,
        )?;
        self.text.append(&mut lines)?;
        self.versions.push(begun)?;
        self.is_clean = self.is_clean && !outcome.is_refusal();
        self.answered += 1;
        Ok(())
    }

    /// Takes the next turn over a version.
    fn take_turn<R: Threads + Sync, A: Attachment>(
        &mut self,
        rt: &R,
        snapshot: &Snapshot<A>,
    ) -> Result<Turn, AllocError>
        ensures { IfOk result (Takes (course_of self.old) (version_of snapshot.now)
            (states_of snapshot.now) (course_of self.new)) }
    {
        let Some(statement) = self.steps.get(self.answered) else {
            return Ok(Turn::Ended);
        };
        if let Statement::Refresh(change, set) = statement {
            return Ok(Turn::AskedRefresh(*change, *set));
        }
        let named = version_named(statement);
        let outcome = outcome_of(rt, self.alloc, statement, &mut self.views, snapshot)?;
        self.put(snapshot.version(), named, &outcome)?;
        Ok(Turn::Answered)
    }

    /// Answers the next statement over a version, or over an earlier one that it names, or asks for
    /// the refresh that it is.
    pub fn run_next<R: Threads + Sync, A: Attachment>(
        &mut self,
        rt: &R,
        snapshot: &Snapshot<A>,
    ) -> Result<Turn, AllocError>
        ensures { Goes (course_of self.old) (version_of snapshot.now) (states_of snapshot.now)
            (course_of self.new) result }
    {
        if self.is_lost {
            return Err(AllocError);
        }
        match self.take_turn(rt, snapshot) {
            Ok(turn) => Ok(turn),
            Err(error) => {
                self.is_lost = true;
                Err(error)
            }
        }
    }

    /// Hands in what came of the refresh that was asked for over this version: the version that it
    /// made, or its cause.
    pub fn hand_in(&mut self, version: u64, tried: Result<u64, Cause>) -> Result<(), AllocError>
        requires { IsRefresh (next_of (course_of self.old)) }
        ensures { HandsIn (course_of self.old) version tried (course_of self.new) result }
    {
        if self.is_lost {
            return Err(AllocError);
        }
        let outcome = refresh_outcome(tried);
        match self.put(version, None, &outcome) {
            Ok(()) => Ok(()),
            Err(error) => {
                self.is_lost = true;
                Err(error)
            }
        }
    }
}
