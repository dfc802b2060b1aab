//! A table of groups by the hashes of their keys.
ghost use Rattle.std.specs.Prelude.{◌≡◌, ◌++◌, ◌<◌, ◌%◌, [], Some, List, IfOk, OnOk, is_some, map, length};
ghost use Rattle.std.specs.Prelude.{replicate, IsTrue};
ghost use Rattle.std.specs.List.{IsDistinct};
ghost use Rattle.store_groups.specs.Pages.{entries_of};
ghost use Rattle.base_value.specs.Truth.{standing_rank};
ghost use Rattle.base_value.specs.declared.value.Value.{Value as Datum};
ghost use Rattle.store_groups.specs.Entries.{CanTake, HasLong, or_empty};
ghost use Rattle.store_groups.specs.Groups.{no_rows, with_row};
ghost use Rattle.store_groups.specs.Pages.{first_of};
ghost use Rattle.store_groups.specs.Entries.{group_at, same_key};
ghost use Rattle.store_groups.specs.Taken.{IsSet, IsTaken, left_of};

use crate::entry::{Entry, Taken};
use crate::group::Group;
use crate::key::{Key, hash_of};
use crate::page::Page;
use base_value::{Row, Standing, Value};
use std::alloc::{AllocError, Global};
use std::hash::Hash;
use std::marker::Model;

/// How many groups a page has on average at most.
const PAGE_GROUPS: usize = 32;

/// Groups, each of another key, seen as the list of the keys with their groups. They lie in pages
/// by the hashes of their keys. A share of the table shares its pages.
#[derive(Drop)]
pub struct Groups {
    alloc: Global,
    pages: Vec<Page>,
    // How many groups there are, as far as memory never failed.
    count: usize,
}

impl Model for Groups {
    ghost use Rattle.store_groups.specs.Pages.{entries_of};
    ghost use Rattle.store_groups.specs.Pages.{IsTable};
    ghost use Rattle.store_groups.specs.Entries.{Entries};

    ghost Value = { Entries };

    ghost view = { λ t. entries_of t.pages.items };

    ghost invariant = { λ t. IsTable ⟦<Row as Hash>⟧.hash_input t.pages.items };
}

/// The page of a key of this hash among `count`.
fn page_of(hash: u64, count: usize) -> usize
    requires { 0 < count }
    ensures value { result ≡ hash % count }
    ensures within { result < count }
{
    (hash % count as u64) as usize
}

/// So many pages without entries.
fn empty_pages(alloc: Global, count: usize) -> Result<Vec<Page>, AllocError>
    ensures { IfOk result (λ pages. pages.items ≡ replicate count []) }
{
    let mut pages = Vec::with_capacity(alloc, count)?;
    for _i in 0..count {
        pages.push(Page::none(alloc)?)?;
    }
    Ok(pages)
}

/// Further shares of pages.
fn page_shares(alloc: Global, pages: &[Page]) -> Result<Vec<Page>, AllocError>
    ensures { IfOk result (λ all. all.items ≡ pages.now) }
{
    let mut all = Vec::with_capacity(alloc, pages.len())?;
    for page in pages {
        all.push(page.share()?)?;
    }
    Ok(all)
}

/// Puts the entries of a page after others.
fn put_entries_of(alloc: Global, page: &Page, all: &mut Vec<Entry>) -> Result<(), AllocError>
    ensures { OnOk result (all.new.items ≡ all.old.items ++ page.now) }
{
    for i in 0..page.len() {
        all.push(page.entry(alloc, i)?)?;
    }
    Ok(())
}

/// The entries of pages.
fn page_entries(alloc: Global, pages: &[Page]) -> Result<Vec<Entry>, AllocError>
    ensures { IfOk result (λ all. all.items ≡ entries_of pages.now) }
{
    let mut all = Vec::new(alloc);
    for page in pages {
        put_entries_of(alloc, page, &mut all)?;
    }
    Ok(all)
}

// Whether no page has an entry.
fn are_empty(pages: &[Page]) -> bool
    ensures { IsTrue result → entries_of pages.now ≡ [] }
{
    for page in pages {
        if page.len() > 0 {
            return false;
        }
    }
    true
}

impl Groups {
    /// No groups.
    pub fn new(alloc: Global) -> Result<Groups, AllocError>
        ensures { IfOk result (λ t. t ≡ []) }
    {
        Groups::of_pages(alloc, 1)
    }

    /// No groups, with so many pages.
    fn of_pages(alloc: Global, count: usize) -> Result<Groups, AllocError>
        requires { 0 < count }
        ensures { IfOk result (λ t. t ≡ []) }
    {
        let pages = empty_pages(alloc, count)?;
        Ok(Groups {
            alloc,
            pages,
            count: 0,
        })
    }

    /// A further share of the groups.
    pub fn share(&self) -> Result<Groups, AllocError>
        ensures { IfOk result (λ t. t ≡ self.now) }
    {
        let pages = page_shares(self.alloc, self.pages.as_slice())?;
        Ok(Groups {
            alloc: self.alloc,
            pages,
            count: self.count,
        })
    }

    /// The pages, in the order of their entries.
    pub fn pages(&self) -> &[Page]
        ensures pages { entries_of result.now ≡ self.now }
        ensures distinct { IsDistinct same_key (map (λ e. e.0) self.now) }
    {
        self.pages.as_slice()
    }

    /// Whether there is no group.
    pub fn is_empty(&self) -> bool
        ensures { IsTrue result → self.now ≡ [] }
    {
        are_empty(self.pages.as_slice())
    }

    /// Whether a key has a group.
    pub fn contains(&self, key: &[Value]) -> bool
        ensures { result ≡ is_some (group_at self.now key.now) }
    {
        if self.is_empty() {
            return false;
        }
        let hash = hash_of(key);
        let at = page_of(hash, self.pages.len());
        self.pages[at].contains(hash, key)
    }

    /// Puts an entry in the place of its key's.
    fn put_entry(&mut self, entry: Entry) -> Result<(), AllocError>
        ensures { OnOk result (IsSet entry.0 (Some entry.1) self.old self.new) }
    {
        let at = page_of(entry.hash(), self.pages.len());
        let before = self.pages[at].len();
        self.pages[at].put(self.alloc, entry)?;
        let after = self.pages[at].len();
        self.count = self.count.saturating_add(after).saturating_sub(before);
        Ok(())
    }

    /// Puts the entries into the table, from the last to the first.
    fn put_entries(&mut self, mut entries: Vec<Entry>) -> Result<(), AllocError>
        ensures { OnOk result ((q : List Datum) → group_at self.new q
            ≡ first_of (group_at entries.items q) (group_at self.old q)) }
    {
        for _i in 0..entries.len() {
            let Some(entry) = entries.pop() else {
                return Ok(());
            };
            self.put_entry(entry)?;
        }
        Ok(())
    }

    /// The same groups on twice as many pages.
    fn grown(&self) -> Result<Groups, AllocError>
        ensures { IfOk result (λ t. (q : List Datum) → group_at t q ≡ group_at self.now q) }
    {
        let count = self.pages.len().checked_mul(2).ok_or(AllocError)?;
        let mut groups = Groups::of_pages(self.alloc, count)?;
        groups.put_entries(page_entries(self.alloc, self.pages.as_slice())?)?;
        Ok(groups)
    }

    /// Makes room for a group more.
    fn make_room(&mut self) -> Result<(), AllocError>
        ensures { OnOk result ((q : List Datum) → group_at self.new q ≡ group_at self.old q) }
    {
        if self.count / PAGE_GROUPS < self.pages.len() {
            return Ok(());
        }
        *self = self.grown()?;
        Ok(())
    }

    /// Sets the group of a key to one of no rows and no cells.
    pub fn put_key(&mut self, key: &[Value]) -> Result<(), AllocError>
        ensures { OnOk result (IsSet key.now (Some (no_rows 0)) self.old self.new) }
    {
        let group = Group::none(self.alloc, 0)?;
        let key = Key::new(self.alloc, hash_of(key), key)?;
        self.make_room()?;
        self.put_entry(Entry::new(key, group))?;
        Ok(())
    }

    /// Puts a row into the group of a key, or into one of no rows, on the pages that there are.
    fn add_row(
        &mut self,
        key: &[Value],
        arguments: &[Value],
        standing: Standing,
    ) -> Result<(), AllocError>
        requires { HasLong (length arguments.now) (group_at self.old key.now) }
        ensures { OnOk result (IsSet key.now (Some (with_row
            (or_empty (length arguments.now) (group_at self.old key.now))
            arguments.now (standing_rank standing))) self.old self.new) }
    {
        let hash = hash_of(key);
        let at = page_of(hash, self.pages.len());
        let before = self.pages[at].len();
        self.pages[at].put_row(self.alloc, hash, key, arguments, standing)?;
        let after = self.pages[at].len();
        self.count = self.count.saturating_add(after).saturating_sub(before);
        Ok(())
    }

    /// Puts a row into the group of a key, or into one of no rows.
    pub fn put_row(
        &mut self,
        key: &[Value],
        arguments: &[Value],
        standing: Standing,
    ) -> Result<(), AllocError>
        requires { HasLong (length arguments.now) (group_at self.old key.now) }
        ensures { OnOk result (IsSet key.now (Some (with_row
            (or_empty (length arguments.now) (group_at self.old key.now))
            arguments.now (standing_rank standing))) self.old self.new) }
    {
        self.make_room()?;
        self.add_row(key, arguments, standing)?;
        Ok(())
    }

    /// Takes a row out of the group of a key. A group that holds a fault is dropped, and so is one
    /// of which no row is left.
    pub fn take_row(&mut self, key: &[Value], arguments: &[Value]) -> Result<Taken, AllocError>
        requires { CanTake arguments.now (group_at self.old key.now) }
        ensures taken { IfOk result (IsTaken arguments.now (group_at self.old key.now)) }
        ensures set { IfOk result (λ t. IsSet key.now
            (left_of arguments.now (group_at self.old key.now) t) self.old self.new) }
    {
        let hash = hash_of(key);
        let at = page_of(hash, self.pages.len());
        let before = self.pages[at].len();
        let taken = self.pages[at].take_row(self.alloc, hash, key, arguments)?;
        let after = self.pages[at].len();
        self.count = self.count.saturating_add(after).saturating_sub(before);
        Ok(taken)
    }
}
