//! A version that a session reads.
ghost use Rattle.std.specs.Prelude.{◌≡◌, ◌+◌, ◌≤◌, length, IfOk, IfSome, OnOk};
ghost use Rattle.std.specs.Arc.{arc_value};
ghost use Rattle.base_columns.specs.Lists.{one_list};
ghost use Rattle.base_row_laws.specs.Bags.{SameBag};
ghost use Rattle.plan_algebra.specs.KeptPlans.{query_rows};
ghost use Rattle.plan_algebra.specs.Trees.{HasKinds};
ghost use Rattle.base_schema.specs.State.{table_rows};
ghost use Rattle.store_state.specs.Versions.{accepted};
ghost use Rattle.store_versions.specs.Older.{GivesOlder};
ghost use Rattle.store_versions.specs.Trials.{tables_of, version_of};

use base_columns::Bag;
use base_schema::TableName;
use plan_algebra::{KeptPlan, Piece, Steps, Tables};
use std::alloc::{AllocError, Global};
use std::marker::Model;
use std::sync::Arc;
use std::sync::ledger::Ledger;
use store_versions::{Attachment, Directory, VersionError};

/// A share of a version, seen as that version.
#[derive(Drop)]
pub struct Snapshot<A: Attachment = ()> {
    share: Arc<Directory<A>>,
}

impl<A: Attachment> Model for Snapshot<A> {
    ghost use Rattle.std.specs.Arc.{arc_value};
    ghost use Rattle.store_versions.specs.Trials.{Trials};

    ghost Value = { Trials };

    ghost view = { λ s. arc_value s.share };
}

impl<A: Attachment> Snapshot<A> {
    /// A snapshot of the shared version.
    pub(crate) fn over(share: Arc<Directory<A>>) -> Snapshot<A>
        ensures { result ≡ arc_value share }
    {
        Snapshot { share }
    }

    /// A snapshot of this version. It shares the rows and copies none.
    pub fn of(alloc: Global, directory: &Directory<A>) -> Result<Snapshot<A>, AllocError>
        ensures { IfOk result (λ snapshot. snapshot ≡ directory.now) }
    {
        let snapshot = Snapshot::owning(alloc, directory.another()?)?;
        Ok(snapshot)
    }

    /// A snapshot of this version.
    fn owning(alloc: Global, directory: Directory<A>) -> Result<Snapshot<A>, AllocError>
        ensures { IfOk result (λ snapshot. snapshot ≡ directory) }
    {
        let share = Arc::new(alloc, directory)?;
        Ok(Snapshot { share })
    }

    /// How many refreshes were accepted.
    pub fn version(&self) -> u64
        ensures version { result ≡ version_of self.now }
        ensures most { result ≤ accepted self.now.base self.now.list (length self.now.list) }
    {
        self.share.version()
    }

    /// A snapshot of the version of a number, which is this one or one of the 63 before it.
    pub fn at(&self, alloc: Global, version: u64) -> Result<Snapshot<A>, VersionError>
        ensures { GivesOlder self.now version result }
    {
        let older = self.share.older(version)?;
        let snapshot = Snapshot::owning(alloc, older)?;
        Ok(snapshot)
    }
}

impl<A: Attachment> Tables for Snapshot<A> {
    ghost rows = { λ snapshot table. table_rows (tables_of snapshot) table };

    fn count(&self, table: TableName) -> u64 {
        Tables::count(&*self.share, table)
    }

    fn scan<L: Ledger>(
        &self,
        alloc: Global,
        table: TableName,
        steps: &mut Steps<L>,
    ) -> Result<Vec<Piece>, AllocError> {
        self.share.scan(alloc, table, steps)
    }

    fn kept(&self, alloc: Global, number: u32, plan: &KeptPlan) -> Result<Option<Bag>, AllocError> {
        Tables::kept(&*self.share, alloc, number, plan)
    }
}
