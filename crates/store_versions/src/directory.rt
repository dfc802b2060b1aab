//! A version with all that it came from.
ghost use Rattle.std.specs.Prelude.{◌≡◌, ◌+◌, ◌<◌, ◌≤◌, ◌↔◌, drop, length, IfOk, IsTrue, Ok, Some};
ghost use Rattle.std.specs.Prelude.{slice_get};
ghost use Rattle.base_schema.specs.Kinds.{RowsAreOf};
ghost use Rattle.base_schema.specs.State.{table_rows};
ghost use Rattle.base_columns.specs.Lists.{one_list};
ghost use Rattle.store_state.specs.Lists.{IsOfKinds};
ghost use Rattle.store_state.specs.Prefixes.{IsPrefix};
ghost use Rattle.store_state.specs.Refresh.{cause_of};
ghost use Rattle.store_state.specs.Versions.{accepted};

use crate::attachment::Attachment;
use crate::compacted::{Compacted, joined_tables};
use crate::kept::{KeptVersion, kept_at};
use crate::lists::{is_beginning, with_refresh};
use base_refusals::Cause;
use base_schema::{TABLES, TableName};
use base_value::Row;
use std::alloc::{AllocError, Global};
use std::marker::Model;
use std::sync::Arc;
use store_state::{Part, Refresh, RefreshError, State, apply, cause_of};

/// The first refreshes of a list that were tried on a base, with the tables that they leave and
/// what is attached to these.
pub struct Directory<A: Attachment = ()> {
    pub(crate) alloc: Global,
    base: Arc<State>,
    list: Arc<Vec<Refresh>>,
    /// How many refreshes the list has in the end.
    most: usize,
    done: usize,
    accepted: u64,
    state: Arc<State>,
    /// Of the 63 versions before it those that are kept, in shared segments.
    earlier: Arc<Vec<KeptVersion<A>>>,
    attachment: A,
}

impl<A: Attachment> Drop for Directory<A> {
    #[inline]
    fn drop(self) {
        let Directory {
            alloc: _,
            base,
            list,
            most: _,
            done: _,
            accepted: _,
            state,
            earlier,
            attachment,
        } = self;
        drop(base);
        drop(list);
        drop(state);
        drop(earlier);
        drop(attachment);
    }
}

impl<A: Attachment> Model for Directory<A> {
    ghost use Rattle.std.specs.Arc.{arc_value};
    ghost use Rattle.store_versions.specs.Older.{HasHistory};
    ghost use Rattle.store_versions.specs.Trials.{Trials, trials_at};

    ghost Value = { Trials };

    ghost view = { λ d. trials_at (arc_value d.base) (arc_value d.list).items d.done d.most };

    ghost invariant = { λ d.
        HasHistory (trials_at (arc_value d.base) (arc_value d.list).items d.done d.most)
        d.accepted (arc_value d.state) (arc_value d.earlier).items
        × A.is_right d.attachment (arc_value d.state) };
}

impl<A: Attachment> Directory<A> {
    ghost use Rattle.std.specs.Arc.{arc_value};
    ghost use Rattle.std.specs.List.{All};
    ghost use Rattle.store_versions.specs.Older.{IsVersionOf};
    ghost use Rattle.store_versions.specs.Segments.{IsCompacted};
    ghost use Rattle.store_versions.specs.Trials.{IsAfter, Leaves, offered, one_more, tables_of};
    ghost use Rattle.store_versions.specs.Trials.{trials_at, version_of};

    /// The base, with nothing tried, and what is attached to it. The list may get longer, up to
    /// this length.
    pub fn new(
        alloc: Global,
        base: State,
        attachment: A,
        list: Vec<Refresh>,
        most: usize,
    ) -> Result<Directory<A>, AllocError>
        requires right { A.is_right attachment base }
        requires most { length list.items ≤ most }
        ensures { IfOk result (λ d. d
            ≡ record { base = base; list = list.items; done = 0; most = most }) }
    {
        let base = Arc::new(alloc, base)?;
        let list = Arc::new(alloc, list)?;
        let state = Arc::try_clone(&base)?;
        let earlier = Arc::new(alloc, Vec::new(alloc))?;
        Ok(Directory {
            alloc,
            base,
            list,
            most,
            done: 0,
            accepted: 0,
            state,
            earlier,
            attachment,
        })
    }

    /// What is attached to this version.
    pub fn attachment(&self) -> &A
        ensures { A.is_right result.now (tables_of self.now) }
    {
        &self.attachment
    }

    /// This version once more; no row is copied.
    pub fn another(&self) -> Result<Directory<A>, AllocError>
        ensures { IfOk result (λ d. d ≡ self.now) }
    {
        let base = Arc::try_clone(&self.base)?;
        let list = Arc::try_clone(&self.list)?;
        let state = Arc::try_clone(&self.state)?;
        let earlier = Arc::try_clone(&self.earlier)?;
        let attachment = self.attachment.share()?;
        Ok(Directory {
            alloc: self.alloc,
            base,
            list,
            most: self.most,
            done: self.done,
            accepted: self.accepted,
            state,
            earlier,
            attachment,
        })
    }

    /// How many refreshes were accepted.
    pub fn version(&self) -> u64
        ensures version { result ≡ version_of self.now }
        ensures most { result ≤ accepted self.now.base self.now.list (length self.now.list) }
    {
        self.accepted
    }

    /// How many refreshes were tried.
    pub(crate) fn tried(&self) -> usize
        ensures tried { result ≡ self.now.done }
        ensures within { result ≤ length self.now.list }
    {
        self.done
    }

    /// How many refreshes the list has.
    pub fn listed(&self) -> usize
        ensures listed { result ≡ length self.now.list }
        ensures most { result ≤ self.now.most }
    {
        self.list.len()
    }

    /// How many refreshes the list has in the end.
    pub fn most(&self) -> usize
        ensures { result ≡ self.now.most }
    {
        self.most
    }

    /// Whether each refresh of the list was tried.
    pub fn is_done(&self) -> bool
        ensures done { IsTrue result ↔ (self.now.done ≡ length self.now.list) }
        ensures within { self.now.done ≤ length self.now.list }
    {
        self.done == self.list.len()
    }

    /// A version of this base and this list, with earlier ones.
    pub(crate) fn at(
        alloc: Global,
        base: Arc<State>,
        list: Arc<Vec<Refresh>>,
        most: usize,
        last: KeptVersion<A>,
        earlier: Arc<Vec<KeptVersion<A>>>,
    ) -> Directory<A>
        requires last { IsVersionOf
            (trials_at (arc_value base) (arc_value list).items last.done most) last }
        requires earlier { All (IsVersionOf
            (trials_at (arc_value base) (arc_value list).items last.done most))
            (arc_value earlier).items }
        ensures { result ≡ trials_at (arc_value base) (arc_value list).items last.done most }
    {
        let KeptVersion {
            number,
            done,
            state,
            attachment,
        } = last;
        Directory {
            alloc,
            base,
            list,
            most,
            done,
            accepted: number,
            state,
            earlier,
            attachment,
        }
    }

    /// This version, whose tables lie in segments of which no row is deleted and no two
    /// neighbours fit in one.
    pub fn compacted(&self) -> Result<Compacted<A>, AllocError>
        ensures { IfOk result (IsCompacted self.now) }
    {
        let tables = joined_tables(self.alloc, &self.state, &TABLES)?;
        let base = Arc::try_clone(&self.base)?;
        let list = Arc::try_clone(&self.list)?;
        let earlier = Arc::try_clone(&self.earlier)?;
        let attachment = self.attachment.share()?;
        Ok(Compacted {
            alloc: self.alloc,
            base,
            list,
            most: self.most,
            done: self.done,
            accepted: self.accepted,
            tables,
            earlier,
            attachment,
        })
    }

    /// The rows of a table in order, as parts of which nothing is copied.
    pub(crate) fn parts(&self, table: TableName) -> &[Part]
        ensures { one_list result.now ≡ table_rows (tables_of self.now) table }
    {
        self.state.parts(table)
    }

    /// How many rows a table has.
    pub fn count(&self, table: TableName) -> u64
        ensures count { result ≡ length (table_rows (tables_of self.now) table) }
        ensures kinds { IsOfKinds (tables_of self.now) }
    {
        self.state.count(table)
    }

    /// The rows of a table in order, each copied to a row of its own.
    pub fn rows(&self, table: TableName) -> Result<Vec<Row>, AllocError>
        ensures rows { IfOk result (λ rows. rows.items ≡ table_rows (tables_of self.now) table) }
        ensures kinds { IfOk result (λ rows. RowsAreOf table rows.items) }
    {
        self.state.rows(self.alloc, table)
    }

    /// A share of the refresh that is tried next.
    pub fn next_refresh(&self) -> Result<Refresh, AllocError>
        requires { self.now.done < length self.now.list }
        ensures { IfOk result
            (λ refresh. slice_get self.now.list self.now.done ≡ Some refresh) }
    {
        self.list[self.done].clone()
    }

    /// The first cause why a refresh is refused in this version; none where it is accepted.
    pub fn cause(&self, refresh: &Refresh) -> Result<Option<Cause>, AllocError>
        ensures { IfOk result (λ cause. cause ≡ cause_of (tables_of self.now) refresh.now) }
    {
        cause_of(self.alloc, &self.state, refresh)
    }

    /// The state that the next refresh leaves here, or its first cause.
    fn try_next(&self) -> Result<State, RefreshError>
        requires { self.now.done < length self.now.list }
        ensures { Leaves self.now result }
    {
        let mut state = self.state.share(self.alloc)?;
        match apply(self.alloc, &mut state, &self.list[self.done]) {
            Ok(()) => Ok(state),
            Err(error) => Err(error),
        }
    }

    /// The versions before it that are kept.
    pub(crate) fn earlier(&self) -> &[KeptVersion<A>]
        ensures { All (IsVersionOf self.now) result.now }
    {
        self.earlier.as_slice()
    }

    /// What the next version keeps: this version and those of the 62 before it that are kept here.
    fn earlier_of_next(&self) -> Result<Vec<KeptVersion<A>>, AllocError>
        requires { self.now.done < length self.now.list }
        ensures { IfOk result (λ kept. All (IsVersionOf self.now) kept.items) }
    {
        let mut kept = kept_at(self.alloc, self.earlier(), self.accepted + 1)?;
        let state = Arc::try_clone(&self.state)?;
        let attachment = self.attachment.share()?;
        kept.push(KeptVersion::new(self.accepted, self.done, state, attachment))?;
        Ok(kept)
    }

    /// Another version of this base and this list, with versions before it that are kept.
    pub(crate) fn sharing(
        &self,
        last: KeptVersion<A>,
        earlier: Vec<KeptVersion<A>>,
    ) -> Result<Directory<A>, AllocError>
        requires last { IsVersionOf self.now last }
        requires earlier { All (IsVersionOf self.now) earlier.items }
        ensures { IfOk result (λ d. d ≡ record self.now { done = last.done }) }
    {
        let base = Arc::try_clone(&self.base)?;
        let list = Arc::try_clone(&self.list)?;
        let earlier = Arc::new(self.alloc, earlier)?;
        Ok(Directory::at(self.alloc, base, list, self.most, last, earlier))
    }

    /// This version of the list that is longer by this refresh.
    pub fn offered(&self, refresh: Refresh) -> Result<Directory<A>, AllocError>
        requires { length self.now.list < self.now.most }
        ensures offered { IfOk result (λ d. d ≡ offered refresh self.now) }
        ensures version { IfOk result (λ d. version_of d ≡ version_of self.now) }
        ensures tables { IfOk result (λ d. tables_of d ≡ tables_of self.now) }
    {
        let base = Arc::try_clone(&self.base)?;
        let list = with_refresh(self.alloc, self.list.as_slice(), refresh)?;
        let list = Arc::new(self.alloc, list)?;
        let state = Arc::try_clone(&self.state)?;
        let attachment = self.attachment.share()?;
        let last = KeptVersion::new(self.accepted, self.done, state, attachment);
        let earlier = Arc::try_clone(&self.earlier)?;
        Ok(Directory::at(self.alloc, base, list, self.most, last, earlier))
    }

    /// Whether its list from a place on is found to begin with that of another from there on.
    pub fn begins_with(&self, other: &Directory<A>, from: usize) -> bool
        ensures begins { IsTrue result
            → IsPrefix (drop from other.now.list) (drop from self.now.list) }
        ensures nothing { length other.now.list ≤ from → IsTrue result }
    {
        let (long, short) = (self.list.as_slice(), other.list.as_slice());
        if short.len() <= from {
            return true;
        }
        if long.len() < short.len() {
            return false;
        }
        is_beginning(&short[from..], &long[from..])
    }

    /// The base, with nothing tried.
    pub(crate) fn first(&self) -> Result<Directory<A>, AllocError>
        ensures { IfOk result (λ d. d ≡ record self.now { done = 0 }) }
    {
        let state = Arc::try_clone(&self.base)?;
        let attachment = self.attachment.anew(self.alloc, &self.base)?;
        let last = KeptVersion::new(0, 0, state, attachment);
        let first = self.sharing(last, Vec::new(self.alloc))?;
        Ok(first)
    }

    /// What is right for the state that the next refresh, which is accepted, leaves here.
    fn attachment_after(&self, state: &Arc<State>) -> Result<A, AllocError>
        requires less { self.now.done < length self.now.list }
        requires leaves { Leaves self.now (Ok (arc_value state.now)) }
        ensures { IfOk result (λ a. A.is_right a (arc_value state.now)) }
    {
        let refresh = &self.list[self.done];
        self.attachment
            .after_refresh(self.alloc, &self.state, refresh, state)
    }

    /// The version of the state that the next refresh, which is accepted, leaves here.
    fn next(&self, state: State) -> Result<Directory<A>, AllocError>
        requires less { self.now.done < length self.now.list }
        requires leaves { Leaves self.now (Ok state) }
        ensures next { IfOk result (λ d. d ≡ one_more self.now) }
        ensures version { IfOk result (λ d. version_of d ≡ version_of self.now + 1) }
        ensures tables { IfOk result (λ d. tables_of d ≡ state) }
    {
        let state = Arc::new(self.alloc, state)?;
        let attachment = self.attachment_after(&state)?;
        let earlier = self.earlier_of_next()?;
        let last = KeptVersion::new(self.accepted + 1, self.done + 1, state, attachment);
        let next = self.sharing(last, earlier)?;
        Ok(next)
    }

    /// Tries the next refresh. An accepted one gives the next version and leaves this one as it is;
    /// of a refused one this version notes only that it was tried.
    pub fn after_next(&mut self) -> Result<Directory<A>, RefreshError>
        requires { self.old.done < length self.old.list }
        ensures { IsAfter self.old self.new result }
    {
        match self.try_next() {
            Ok(state) => {
                let next = self.next(state)?;
                Ok(next)
            }
            Err(RefreshError::Refused(cause)) => {
                self.done += 1;
                Err(RefreshError::Refused(cause))
            }
            Err(RefreshError::OutOfMemory) => Err(RefreshError::OutOfMemory),
        }
    }
}
