//! The publisher, and the opening of readers for it.
ghost use Rattle.std.specs.Prelude.{◌≡◌, ◌<◌, ◌≤◌, ◌↔◌, IfOk, IsTrue, OnErr, OnOk, length};
ghost use Rattle.std.specs.Prelude.{slice_get};
ghost use Rattle.std.specs.Arc.{arc_value};
ghost use Rattle.store_versions.specs.Trials.{offered, tables_of, version_of};
ghost use Rattle.store_snapshots.specs.Halls.{AreSeated, HaveSeenLists, SeatsEnough, shown_in};
ghost use Rattle.store_snapshots.specs.Publishers.{joined_in, version_in};
ghost use Rattle.store_snapshots.specs.Rule.{MayFollow};
ghost use Rattle.store_snapshots.specs.Ruled.{list_fits, opening_of};

use crate::hall::seat;
use crate::latest::Latest;
use crate::note::Note;
use crate::reader::Reader;
use crate::rule::{ShelfWriter, publish, start};
use crate::ruled::RuledEntry;
use crate::ruled_hall::RuledHall;
use crate::shelf::Shelf;
use crate::snapshot::Snapshot;
use base_refusals::Cause;
use core::mem::replace_with;
use left_right::Absorb;
use std::alloc::{AllocError, Global};
use std::marker::Model;
use std::sync::{Arc, Wait};
use store_state::{Refresh, RefreshError, State};
use store_versions::{Attachment, Directory};

/// Tries refreshes one after the other, those of its list and then those that are given, which come
/// to the list's end, and shows readers the versions. It is seen as its last version and the one
/// that readers are shown, with how often its hall refused an entry, and with the last version's
/// segments from a compaction up to the next refresh that is tried. It is not dropped: `close` ends
/// it.
pub struct Publisher<A: Attachment = ()>
where
    Shelf<A>: Absorb<Shelf<A>, State = Directory<A>>,
{
    alloc: Global,
    writer: ShelfWriter<A>,
    refused: u64,
    latest: Latest<A>,
}

impl<A: Attachment> Model for Publisher<A>
where
    Shelf<A>: Absorb<Shelf<A>, State = Directory<A>>,
{
    ghost use Rattle.store_snapshots.specs.Publishers.{Edition, IsInStep, joined_in, version_in};
    ghost use Rattle.store_snapshots.specs.Rule.{on_shelf};

    ghost Value = { Edition };

    ghost view = { λ p. record {
      version = version_in p.latest;
      shown = on_shelf p.writer.desk.shown.value;
      refused = p.refused;
      joined = joined_in p.latest;
    } };

    ghost invariant = { IsInStep };
}

/// What comes of a trial.
#[derive(Drop)]
pub enum Published<A: Attachment = ()> {
    /// The refresh was accepted, and readers are shown the version after it. The note tells of it.
    Published(Note<A>),
    /// The refresh was refused.
    Refused(Cause),
    /// Each refresh was tried.
    NoMore,
    /// Memory ran out.
    OutOfMemory,
}

/// What comes of a trial of a refresh that is given.
#[derive(Drop)]
pub enum Given<A: Attachment = ()> {
    /// The refresh was accepted, and readers are shown the version after it. The note tells of it.
    Published(Note<A>),
    /// The refresh was refused.
    Refused(Cause),
    /// Memory ran out.
    OutOfMemory,
}

impl<A: Attachment> Publisher<A> {
    ghost use Rattle.store_snapshots.specs.Given.{TriesNext};
    ghost use Rattle.store_snapshots.specs.Publishers.{Foretells, LiesJoined, Shows, StaysUntried};
    ghost use Rattle.store_snapshots.specs.Publishers.{TellsVersion, Tries};

    /// Tries the next refresh of the list. Where memory runs out all stays as it was. Where each
    /// refresh was tried, no memory is taken.
    pub fn publish_next<R: Wait>(&mut self, rt: &R) -> Published<A>
        ensures tries { Tries self.old.version self.new.version result }
        ensures none { self.old.version.done ≡ length self.old.version.list
            → result ≡ Published.NoMore }
        ensures untried { StaysUntried self.old self.new result }
        ensures shown { Shows self.old self.new result }
        ensures refused { self.new.refused ≡ self.old.refused }
    {
        if self.latest.is_done() {
            return Published::NoMore;
        }
        let Ok(trials) = self.latest.directory() else {
            return Published::OutOfMemory;
        };
        match self.try_next(rt, trials) {
            Given::Published(note) => Published::Published(note),
            Given::Refused(cause) => Published::Refused(cause),
            Given::OutOfMemory => Published::OutOfMemory,
        }
    }

    /// Puts a refresh at the end of a list of which each one was tried, and tries it there. Where
    /// memory runs out all stays as it was, and the list too.
    pub fn publish_given<R: Wait>(&mut self, rt: &R, refresh: Refresh) -> Given<A>
        requires done { self.old.version.done ≡ length self.old.version.list }
        requires room { length self.old.version.list < self.old.version.most }
        ensures tries { TriesNext (offered refresh self.old.version) self.old self.new result }
        ensures refused { self.new.refused ≡ self.old.refused }
    {
        let Ok(directory) = self.latest.directory() else {
            return Given::OutOfMemory;
        };
        let Ok(longer) = directory.offered(refresh) else {
            return Given::OutOfMemory;
        };
        self.try_next(rt, longer)
    }

    /// Tries the next refresh of a version that is this one, but for a list that may be longer.
    fn try_next<R: Wait>(&mut self, rt: &R, mut trials: Directory<A>) -> Given<A>
        requires left { trials.done < length trials.list }
        requires follows { MayFollow self.old.version trials }
        requires number { version_of trials ≡ version_of self.old.version }
        ensures tries { TriesNext trials self.old self.new result }
        ensures refused { self.new.refused ≡ self.old.refused }
    {
        match trials.after_next() {
            Ok(next) => match self.show_next(rt, next) {
                Ok(note) => Given::Published(note),
                Err(_) => Given::OutOfMemory,
            },
            Err(RefreshError::Refused(cause)) => {
                self.keep(trials);
                Given::Refused(cause)
            }
            Err(RefreshError::OutOfMemory) => Given::OutOfMemory,
        }
    }

    /// Keeps a version that may follow and has the same number, and shows readers nothing new.
    fn keep(&mut self, trials: Directory<A>)
        requires follows { MayFollow self.old.version trials }
        requires number { version_of trials ≡ version_of self.old.version }
        ensures version { self.new.version ≡ trials }
        ensures shown { self.new.shown ≡ self.old.shown }
        ensures refused { self.new.refused ≡ self.old.refused }
    {
        self.latest = Latest::Tried(trials);
    }

    /// Shows readers a share of a version that may follow, and keeps that version.
    fn show<R: Wait>(
        &mut self,
        rt: &R,
        share: Arc<Directory<A>>,
        latest: Latest<A>,
    ) -> Result<(), AllocError>
        requires share { arc_value share ≡ version_in latest }
        requires follows { MayFollow self.old.version (version_in latest) }
        ensures ok { OnOk result (self.new ≡ record {
          version = version_in latest;
          shown = version_in latest;
          refused = self.old.refused;
          joined = joined_in latest;
        }) }
        ensures err { OnErr result (self.new ≡ self.old) }
    {
        replace_with(&mut self.writer, (rt, share), publish::<A, R>)?;
        self.latest = latest;
        Ok(())
    }

    /// Shows readers the next version, and tells of it.
    fn show_next<R: Wait>(&mut self, rt: &R, next: Directory<A>) -> Result<Note<A>, AllocError>
        requires { MayFollow self.old.version next }
        ensures version { OnOk result ((self.new.version ≡ next) × (self.new.shown ≡ next)) }
        ensures refused { self.new.refused ≡ self.old.refused }
        ensures note { IfOk result (TellsVersion next) }
        ensures err { OnErr result (self.new ≡ self.old) }
    {
        let share = Arc::new(self.alloc, next.another()?)?;
        let note = Note::of(&share)?;
        self.show(rt, share, Latest::Tried(next))?;
        Ok(note)
    }

    /// Whether a refresh would be accepted, if it were tried on the last version. Nothing is tried.
    pub fn tried(&self, refresh: &Refresh) -> Result<(), RefreshError>
        ensures { Foretells (tables_of self.now.version) refresh.now result }
    {
        let directory = self.latest.directory()?;
        match directory.cause(refresh)? {
            Some(cause) => Err(RefreshError::Refused(cause)),
            None => Ok(()),
        }
    }

    /// Whether a refresh of the list is left.
    pub fn left(&self) -> bool
        ensures left { IsTrue result ↔ (self.now.version.done < length self.now.version.list) }
        ensures within { self.now.version.done ≤ length self.now.version.list }
    {
        !self.latest.is_done()
    }

    /// The next refresh of the list, if one is left. None of its rows is copied.
    pub fn next(&self) -> Result<Option<Refresh>, AllocError>
        ensures { IfOk result
            (λ next. next ≡ slice_get self.now.version.list self.now.version.done) }
    {
        if self.latest.is_done() {
            return Ok(None);
        }
        let refresh = self.latest.directory()?.next_refresh()?;
        Ok(Some(refresh))
    }

    /// How many refreshes were accepted.
    pub fn version(&self) -> u64
        ensures { result ≡ version_of self.now.version }
    {
        self.latest.version()
    }

    /// A snapshot of the last version. It shares the rows and copies none.
    pub fn snapshot(&self) -> Result<Snapshot<A>, AllocError>
        ensures { IfOk result (λ snapshot. snapshot ≡ self.now.version) }
    {
        let share = Arc::new(self.alloc, self.latest.directory()?)?;
        Ok(Snapshot::over(share))
    }

    /// How many refreshes the list has.
    pub fn listed(&self) -> usize
        ensures listed { result ≡ length self.now.version.list }
        ensures most { result ≤ self.now.version.most }
    {
        self.latest.listed()
    }

    /// Whether each refresh of the list was tried.
    pub fn is_done(&self) -> bool
        ensures done { IsTrue result ↔ (self.now.version.done ≡ length self.now.version.list) }
        ensures within { self.now.version.done ≤ length self.now.version.list }
    {
        self.latest.is_done()
    }

    /// A note of the version that is shown. Its number is the last version's.
    pub fn tell(&self) -> Result<Note<A>, AllocError>
        ensures note { IfOk result (TellsVersion self.now.shown) }
        ensures number { version_of self.now.shown ≡ version_of self.now.version }
    {
        Note::of(&self.writer.published().directory)
    }

    /// Puts the version into segments of which no row is deleted and no two neighbours fit in one,
    /// and shows readers a share of it, with the whole list. The clause `joined` speaks of what the
    /// publisher keeps. Where memory runs out all stays as it was.
    pub fn compact<R: Wait>(&mut self, rt: &R) -> Result<(), AllocError>
        ensures version { self.new.version ≡ self.old.version }
        ensures shown { OnOk result (self.new.shown ≡ self.old.version) }
        ensures refused { self.new.refused ≡ self.old.refused }
        ensures joined { OnOk result (LiesJoined self.old.version self.new.joined) }
        ensures err { OnErr result (self.new ≡ self.old) }
    {
        let directory = self.latest.directory()?;
        let compacted = directory.compacted()?;
        let share = Arc::new(self.alloc, compacted.directory()?)?;
        self.show(rt, share, Latest::Joined(compacted))?;
        Ok(())
    }

    /// Waits for the readers that are inside.
    pub fn close<R: Wait>(self, rt: &R) {
        let Publisher {
            alloc: _alloc,
            writer,
            refused: _refused,
            latest: _latest,
        } = self;
        drop(writer.take(rt));
    }
}

/// A publisher of a base with nothing tried, and as many readers of its versions as are wanted;
/// fewer, but one, only where its hall refused an entry. Its list will have at most so many
/// refreshes in the end. The attachment is right for the base.
pub fn open<A: Attachment, R: Wait>(
    rt: &R,
    alloc: Global,
    base: State,
    attachment: A,
    list: Vec<Refresh>,
    want: u32,
    most: usize,
) -> Result<(Publisher<A>, Vec<Reader<RuledEntry<A>>>), AllocError>
    requires right { A.is_right attachment base }
    requires want { 1 ≤ want }
    requires most { length list.items ≤ most }
    ensures publisher { IfOk result (λ r. r.0.version
        ≡ record { base = base; list = list.items; done = 0; most = most }) }
    ensures shown { IfOk result (λ r. r.0.shown ≡ r.0.version) }
    ensures readers { IfOk result (λ r. AreSeated opening_of r.0.version r.1.items) }
    ensures lists { IfOk result (λ r. HaveSeenLists list_fits r.1.items) }
    ensures enough { IfOk result (λ r. SeatsEnough want (length r.1.items) 0 r.0.refused) }
{
    let directory = Directory::new(alloc, base, attachment, list, most)?;
    let share = Arc::new(alloc, directory.another()?)?;
    let shown = Arc::try_clone(&share)?;
    let Some(writer) = start(rt, alloc, shown, want as usize) else {
        return Err(AllocError);
    };
    let mut hall = RuledHall::over(writer);
    match seat_all(alloc, &share, want as usize, &mut hall) {
        Ok(readers) => Ok((publisher_of(alloc, hall, directory), readers)),
        Err(error) => {
            hall.close(rt);
            Err(error)
        }
    }
}

/// A publisher of the version that a hall shows.
fn publisher_of<A: Attachment>(
    alloc: Global,
    hall: RuledHall<A>,
    directory: Directory<A>,
) -> Publisher<A>
    requires { directory ≡ shown_in hall }
    ensures version { (result.version ≡ directory) × (result.shown ≡ directory) }
    ensures refused { result.refused ≡ hall.refusals }
{
    let RuledHall {
        writer,
        refusals: refused,
    } = hall;
    Publisher {
        alloc,
        writer,
        refused,
        latest: Latest::Tried(directory),
    }
}

/// Seats readers in a hall that shows its opening's directory.
fn seat_all<A: Attachment>(
    alloc: Global,
    start: &Arc<Directory<A>>,
    want: usize,
    hall: &mut RuledHall<A>,
) -> Result<Vec<Reader<RuledEntry<A>>>, AllocError>
    requires want { 1 ≤ want }
    requires start { arc_value start.now ≡ shown_in hall.old }
    requires fresh { version_of (arc_value start.now) ≡ 0 }
    ensures shown { shown_in hall.new ≡ shown_in hall.old }
    ensures readers { IfOk result
        (λ readers. AreSeated opening_of (arc_value start.now) readers.items) }
    ensures lists { IfOk result (λ readers. HaveSeenLists list_fits readers.items) }
    ensures enough { IfOk result
        (λ readers. SeatsEnough want (length readers.items) hall.old.refusals hall.new.refusals) }
{
    let first = hall.entry()?;
    let readers = seat(alloc, first, start, hall, want)?;
    Ok(readers)
}
