//! The machine.
ghost use Rattle.std.specs.Prelude.{◌≡◌, ◌≤◌, ◌<◌, ◌==◌, suc, length, replicate, if◌then◌else◌};
ghost use Rattle.std.specs.Prelude.{IfNone, IfOk, IfSome, OnErr, OnOk, option_map};
ghost use Rattle.std.specs.Vec.{vec_items};
ghost use Rattle.std.specs.List.{list_all};
ghost use Rattle.base_schema.specs.Tables.{all_tables};
ghost use Rattle.base_schema.specs.State.{table_rows};
ghost use Rattle.store_state.specs.Versions.{version_state};
ghost use Rattle.store_machine.specs.Kept.{IsTried};
ghost use Rattle.store_machine.specs.Machine.{SessionState, World, begun, begun_again, changed_in};
ghost use Rattle.store_machine.specs.Machine.{finished, finished_scan, gone_back, happens, is_cut};
ghost use Rattle.store_machine.specs.Machine.{learnt, may_go_back, pinned_back};
ghost use Rattle.store_machine.specs.Machine.{lengths_of, new_session, piece_of, pinned, published};
ghost use Rattle.store_machine.specs.Machine.{rows_in, scan_from, scanned_at, session_of, start};
ghost use Rattle.store_machine.specs.Machine.{total, with_session};

use crate::cut::adds_up;
use crate::scan::{joined_pieces, scanned_piece};
use crate::session::Session;
use crate::steps::{Cuts, Step};
use base_schema::{TABLES, TableName};
use base_value::Row;
use std::alloc::{AllocError, Global};
use std::marker::Model;
use store_state::{Refresh, RefreshError, State, apply};

/// A base, a list of refreshes of which the first ones were tried and which may get longer, and
/// sessions that begin and scan beside them.
pub struct Machine {
    alloc: Global,
    base: State,
    list: Vec<Refresh>,
    done: usize,
    /// The state of each version so far, the base first.
    versions: Vec<State>,
    sessions: Vec<Session>,
}

impl Drop for Machine {
    #[inline]
    fn drop(self) {
        let Machine {
            alloc: _,
            base,
            list,
            done: _,
            versions,
            sessions,
        } = self;
        drop(base);
        drop(list);
        drop(versions);
        drop(sessions);
    }
}

impl Model for Machine {
    ghost use Rattle.store_machine.specs.Machine.{World};
    ghost use Rattle.store_machine.specs.Kept.{AreVersionsKept};

    ghost Value = { World };

    ghost view = { λ m. record {
      base = m.base;
      list = m.list.items;
      done = m.done;
      sessions = m.sessions.items;
    } };

    ghost invariant = { λ m.
        AreVersionsKept (record {
          base = m.base;
          list = m.list.items;
          done = m.done;
          sessions = m.sessions.items;
        }) m.versions.items };
}

impl Machine {
    /// Nothing tried, and a number of sessions that have done nothing.
    pub fn new(
        alloc: Global,
        base: State,
        list: Vec<Refresh>,
        sessions: u32,
    ) -> Result<Machine, AllocError>
        ensures { IfOk result (λ m. m ≡ start base list.items sessions) }
    {
        let mut versions = Vec::new(alloc);
        versions.push(base.share(alloc)?)?;
        let sessions = new_sessions(alloc, sessions)?;
        Ok(Machine {
            alloc,
            base,
            list,
            done: 0,
            versions,
            sessions,
        })
    }

    /// The number of the published version.
    fn published(&self) -> u64
        ensures { result ≡ published self.now }
    {
        self.versions.len() as u64 - 1
    }

    /// The state of a version.
    fn version(&self, version: u64) -> &State
        requires { version ≤ published self.now }
        ensures { result.now ≡ version_state self.now.base self.now.list version }
    {
        &self.versions[version as usize]
    }

    /// Whether the lengths of each table's pieces add up to its rows in a version.
    fn is_cut(&self, version: u64, cuts: &Cuts) -> bool
        requires { version ≤ published self.now }
        ensures { result ≡ is_cut self.now.base self.now.list version cuts.now }
    {
        is_cut(self.version(version), cuts)
    }

    /// Where the session of a number stands, if there is one.
    fn place_of(&self, number: u32) -> Option<usize>
        ensures there { IfSome result
            (λ place. (number ≡ suc place) × (place < length self.now.sessions)) }
        ensures absent { IfNone result
            ((change : SessionState → SessionState)
            → changed_in self.now.sessions number change ≡ self.now.sessions) }
        ensures new { IfNone result (session_of self.now number ≡ new_session) }
    {
        if number == 0 {
            return None;
        }
        let place = number as usize - 1;
        if place < self.sessions.len() {
            Some(place)
        } else {
            None
        }
    }
}

impl Machine {
    /// The version that a session has seen; 0 for a session that is not there.
    fn seen(&self, number: u32) -> u64
        ensures seen { result ≡ (session_of self.now number).seen }
        ensures published { result ≤ published self.now }
    {
        match self.place_of(number) {
            Some(place) => self.sessions[place].seen(),
            None => 0,
        }
    }

    /// The session pins a version, if the cuts are of it.
    fn take(&mut self, number: u32, version: u64, cuts: Cuts)
        requires { version ≤ published self.old }
        ensures { self.new ≡ with_session self.old number
            (λ session. if is_cut self.old.base self.old.list version cuts then pinned version cuts
            else session) }
    {
        if !self.is_cut(version, &cuts) {
            return;
        }
        if let Some(place) = self.place_of(number) {
            self.sessions[place].take(version, cuts);
        }
    }

    /// The session pins the published version.
    fn begin(&mut self, number: u32, cuts: Cuts)
        ensures { self.new ≡ happens self.old (Step.Begin number cuts) }
    {
        let version = self.published();
        self.take(number, version, cuts);
    }

    /// The session pins the version again that it has seen.
    fn begin_again(&mut self, number: u32, cuts: Cuts)
        ensures { self.new ≡ happens self.old (Step.Again number cuts) }
    {
        let version = self.seen(number);
        self.take(number, version, cuts);
    }

    /// The session pins an earlier version in place of the one that it pins.
    fn go_back(&mut self, number: u32, version: u64, cuts: Cuts)
        ensures { self.new ≡ happens self.old (Step.Back number version cuts) }
    {
        let Some(place) = self.place_of(number) else {
            return;
        };
        if !self.sessions[place].may_go_back(version) {
            return;
        }
        if !self.is_cut(version, &cuts) {
            return;
        }
        self.sessions[place].go_back(version, cuts);
    }

    /// The session takes a note.
    fn learn(&mut self, number: u32, note: u64)
        ensures { self.new ≡ happens self.old (Step.Learn number note) }
    {
        if note > self.published() {
            return;
        }
        if let Some(place) = self.place_of(number) {
            self.sessions[place].learn(note);
        }
    }

    /// The session drops its pin.
    fn finish(&mut self, number: u32)
        ensures { self.new ≡ happens self.old (Step.Finish number) }
    {
        if let Some(place) = self.place_of(number) {
            self.sessions[place].finish();
        }
    }
}

impl Machine {
    /// The session scans a piece of the version that it pins.
    fn scan(&mut self, number: u32, table: TableName, piece: usize) -> Result<(), AllocError>
        ensures ok { OnOk result (self.new ≡ happens self.old (Step.Scan number table piece)) }
        ensures err { OnErr result (self.new ≡ self.old) }
    {
        let Some(place) = self.place_of(number) else {
            return Ok(());
        };
        let Some(version) = self.sessions[place].pin() else {
            return Ok(());
        };
        let state = self.version(version);
        let cuts = self.sessions[place].cuts();
        match scanned_piece(self.alloc, state, cuts, table, piece)? {
            Some(piece) => self.sessions[place].note(piece),
            None => Ok(()),
        }
    }

    /// The state after the next refresh is tried on the published one, if it is accepted.
    fn tried(&self) -> Result<Option<State>, AllocError>
        requires { self.now.done < length self.now.list }
        ensures { IfOk result (IsTried self.now) }
    {
        let mut next = self.version(self.published()).share(self.alloc)?;
        match apply(self.alloc, &mut next, &self.list[self.done]) {
            Ok(()) => Ok(Some(next)),
            Err(RefreshError::Refused(_)) => Ok(None),
            Err(RefreshError::OutOfMemory) => Err(AllocError),
        }
    }

    /// A refresh is put at the end of the list.
    fn offer(&mut self, refresh: Refresh) -> Result<(), AllocError>
        ensures ok { OnOk result (self.new ≡ happens self.old (Step.Offer refresh)) }
        ensures err { OnErr result (self.new ≡ self.old) }
    {
        self.list.push(refresh)?;
        Ok(())
    }

    /// The next refresh is tried; an accepted one makes the next version.
    fn publish(&mut self) -> Result<(), AllocError>
        ensures ok { OnOk result (self.new ≡ happens self.old Step.Publish) }
        ensures err { OnErr result (self.new ≡ self.old) }
    {
        if self.done == self.list.len() {
            return Ok(());
        }
        match self.tried()? {
            Some(next) => {
                self.versions.push(next)?;
                self.done += 1;
                Ok(())
            }
            None => {
                self.done += 1;
                Ok(())
            }
        }
    }

    /// The rows of a session's finished scan of a table; none where it has not scanned each piece
    /// of the version that it pins. Sessions count from 1.
    pub fn scanned(&self, session: u32, table: TableName) -> Result<Option<Vec<Row>>, AllocError>
        ensures { IfOk result (λ rows. option_map vec_items rows
            ≡ finished_scan self.now session table) }
    {
        let Some(place) = self.place_of(session) else {
            return Ok(None);
        };
        let session = &self.sessions[place];
        match session.pin() {
            Some(_) => {
                let lengths = session.cuts().of(table);
                let rows = joined_pieces(self.alloc, session.pieces(), lengths, table)?;
                Ok(rows)
            }
            None => Ok(None),
        }
    }
}

/// A step happens. Where memory is wanted, nothing changes.
pub fn step(machine: &mut Machine, step: Step) -> Result<(), AllocError>
    ensures ok { OnOk result (machine.new ≡ happens machine.old step) }
    ensures err { OnErr result (machine.new ≡ machine.old) }
{
    match step {
        Step::Begin(session, cuts) => {
            machine.begin(session, cuts);
            Ok(())
        }
        Step::Again(session, cuts) => {
            machine.begin_again(session, cuts);
            Ok(())
        }
        Step::Back(session, version, cuts) => {
            machine.go_back(session, version, cuts);
            Ok(())
        }
        Step::Scan(session, table, piece) => machine.scan(session, table, piece),
        Step::Offer(refresh) => machine.offer(refresh),
        Step::Publish => machine.publish(),
        Step::Compact => Ok(()),
        Step::Finish(session) => {
            machine.finish(session);
            Ok(())
        }
        Step::Learn(session, note) => {
            machine.learn(session, note);
            Ok(())
        }
    }
}

/// Sessions that have done nothing.
fn new_sessions(alloc: Global, count: u32) -> Result<Vec<Session>, AllocError>
    ensures { IfOk result (λ sessions. sessions.items ≡ replicate count new_session) }
{
    let mut sessions = Vec::with_capacity(alloc, count as usize)?;
    for _i in 0..count {
        sessions.push(Session::new(alloc))?;
    }
    Ok(sessions)
}

/// Whether the lengths of each table's pieces add up to its rows.
fn is_cut(state: &State, cuts: &Cuts) -> bool
    ensures { result ≡ list_all
        (λ table. total (lengths_of cuts.now table) == length (table_rows state.now table))
        all_tables }
{
    TABLES
        .iter()
        .all(|table| adds_up(cuts.of(*table), state.count(*table)))
}
