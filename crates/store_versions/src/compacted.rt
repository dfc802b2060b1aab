//! A version in whole segments.
ghost use Rattle.std.specs.Prelude.{◌≡◌, ◌≤◌, ◌↔◌, IfOk, IsTrue, OnOk, length, map};
ghost use Rattle.std.specs.List.{All};
ghost use Rattle.base_columns.specs.Lists.{one_list};
ghost use Rattle.base_schema.specs.Kinds.{RowsAreOf};
ghost use Rattle.base_schema.specs.State.{table_rows};
ghost use Rattle.store_state.specs.Lists.{IsOfKinds, state_of};
ghost use Rattle.store_versions.specs.Segments.{AreJoined};
ghost use Rattle.store_versions.specs.Trials.{version_of};

use crate::attachment::Attachment;
use crate::directory::Directory;
use crate::joining::joined;
use crate::kept::KeptVersion;
use base_columns::{Rows, Segment};
use base_schema::TableName;
use std::alloc::{AllocError, Global};
use std::marker::Model;
use std::sync::Arc;
use store_state::{Refresh, State};

/// A version whose tables lie in segments of which no row is deleted and no two neighbours fit in
/// one. It is seen as that version with the segments of each table.
pub struct Compacted<A: Attachment = ()> {
    pub(crate) alloc: Global,
    pub(crate) base: Arc<State>,
    pub(crate) list: Arc<Vec<Refresh>>,
    /// How many refreshes the list has in the end.
    pub(crate) most: usize,
    pub(crate) done: usize,
    pub(crate) accepted: u64,
    /// The segments of each table, in the schema's order of tables.
    pub(crate) tables: Vec<Vec<Segment>>,
    /// The earlier versions that are kept.
    pub(crate) earlier: Arc<Vec<KeptVersion<A>>>,
    /// What is attached to the tables.
    pub(crate) attachment: A,
}

impl<A: Attachment> Drop for Compacted<A> {
    #[inline]
    fn drop(self) {
        let Compacted {
            alloc: _,
            base,
            list,
            most: _,
            done: _,
            accepted: _,
            tables,
            earlier,
            attachment,
        } = self;
        drop(base);
        drop(list);
        drop(tables);
        drop(earlier);
        drop(attachment);
    }
}

impl<A: Attachment> Model for Compacted<A> {
    ghost use Rattle.std.specs.Prelude.{◌≡◌, length, map};
    ghost use Rattle.std.specs.Arc.{arc_value};
    ghost use Rattle.std.specs.Vec.{vec_items};
    ghost use Rattle.base_columns.specs.Lists.{one_list};
    ghost use Rattle.store_state.specs.Lists.{IsOfKinds, state_of};
    ghost use Rattle.store_versions.specs.Segments.{Compaction};
    ghost use Rattle.store_versions.specs.Older.{HasHistory};
    ghost use Rattle.store_versions.specs.Trials.{trials_at};

    ghost Value = { Compaction };

    ghost view = { λ c. record {
      version = trials_at (arc_value c.base) (arc_value c.list).items c.done c.most;
      tables = map vec_items c.tables.items;
    } };

    ghost invariant = { λ c.
        HasHistory (trials_at (arc_value c.base) (arc_value c.list).items c.done c.most)
        c.accepted (state_of (map (λ segments. one_list segments.items) c.tables.items))
        (arc_value c.earlier).items
        × (length c.tables.items ≡ 8)
        × IsOfKinds (state_of (map (λ segments. one_list segments.items) c.tables.items))
        × A.is_right c.attachment
        (state_of (map (λ segments. one_list segments.items) c.tables.items)) };
}

impl<A: Attachment> Compacted<A> {
    /// How many refreshes were accepted.
    pub fn version(&self) -> u64
        ensures { result ≡ version_of self.now.version }
    {
        self.accepted
    }

    /// How many refreshes the list has.
    pub fn listed(&self) -> usize
        ensures listed { result ≡ length self.now.version.list }
        ensures most { result ≤ self.now.version.most }
    {
        self.list.len()
    }

    /// Whether each refresh of the list was tried.
    pub fn is_done(&self) -> bool
        ensures done { IsTrue result ↔ (self.now.version.done ≡ length self.now.version.list) }
        ensures within { self.now.version.done ≤ length self.now.version.list }
    {
        self.done == self.list.len()
    }

    /// This version as a directory, whose tables' parts are these segments.
    pub fn directory(&self) -> Result<Directory<A>, AllocError>
        ensures { IfOk result (λ d. d ≡ self.now.version) }
    {
        let tables = state_over(self.alloc, self.tables.as_slice())?;
        let state = Arc::new(self.alloc, tables)?;
        let base = Arc::try_clone(&self.base)?;
        let list = Arc::try_clone(&self.list)?;
        let attachment = self.attachment.share()?;
        let last = KeptVersion::new(self.accepted, self.done, state, attachment);
        let earlier = Arc::try_clone(&self.earlier)?;
        Ok(Directory::at(self.alloc, base, list, self.most, last, earlier))
    }

    /// Becomes a directory, whose tables' parts are these segments.
    pub fn into_directory(self) -> Result<Directory<A>, AllocError>
        ensures { IfOk result (λ d. d ≡ self.version) }
    {
        let directory = self.directory()?;
        Ok(directory)
    }
}

/// The rows of these tables of a state in joined segments, table by table.
pub(crate) fn joined_tables(
    alloc: Global,
    state: &State,
    names: &[TableName],
) -> Result<Vec<Vec<Segment>>, AllocError>
    ensures rows { IfOk result (λ tables. map (λ segments. one_list segments.items) tables.items
        ≡ map (table_rows state.now) names.now) }
    ensures joined { IfOk result (λ tables.
        All (λ segments. AreJoined segments.items) tables.items) }
    ensures kinds { OnOk result
        (All (λ table. RowsAreOf table (table_rows state.now table)) names.now) }
{
    let mut tables = Vec::with_capacity(alloc, names.len())?;
    for name in names {
        let segments = joined(alloc, name.kinds().len(), state.parts(*name))?;
        tables.push(segments)?;
    }
    Ok(tables)
}

/// The rows of segments, of which nothing is copied.
#[tactic(auto, using(store_state::proofs::PartLists::lists))]
fn rows_over(alloc: Global, segments: &[Segment]) -> Result<Rows, AllocError>
    ensures { IfOk result (λ rows. rows ≡ one_list segments.now) }
{
    let mut rows = Rows::new(alloc);
    for segment in segments {
        rows.push(segment.clone()?)?;
    }
    Ok(rows)
}

/// The state whose tables lie in these segments, which stand in the schema's order of tables.
fn state_over(alloc: Global, tables: &[Vec<Segment>]) -> Result<State, AllocError>
    requires eight { length tables.now ≡ 8 }
    requires kinds { IsOfKinds (state_of (map (λ segments. one_list segments.items) tables.now)) }
    ensures { IfOk result
        (λ state. state ≡ state_of (map (λ segments. one_list segments.items) tables.now)) }
{
    let mut all = Vec::with_capacity(alloc, 8)?;
    for segments in tables {
        all.push(rows_over(alloc, segments.as_slice())?)?;
    }
    let state = State::new(alloc, all)?;
    Ok(state)
}
