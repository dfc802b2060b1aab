//! Reading the refresh files that a session's statements name.
ghost use Rattle.std.specs.Prelude.{◌≡◌, ◌++◌, IfOk, OnOk, length};
ghost use Rattle.std.specs.List.{AllByRecursion};
ghost use Rattle.std.specs.Vec.{vec_items};
ghost use Rattle.base_refusals.specs.declared.refresh.RefreshFile.TheVariants.{Orders, Lineitem};
ghost use Rattle.base_refusals.specs.declared.refresh.RefreshFile.TheVariants.{Delete};
ghost use Rattle.app_inputs.specs.FilesAfter.{FilesAfterInput};
ghost use Rattle.app_inputs.specs.KnownFiles.{AreKnown};
ghost use Rattle.app_inputs.specs.Inputs.{changes_in, delete_of, insert_of, mention_of};
ghost use Rattle.app_inputs.specs.Inputs.{mentions_of};
ghost use Rattle.app_inputs.specs.Inputs.{refresh_in};
ghost use Rattle.store_refresh_entries.specs.Change.{MayBeStored};
ghost use Rattle.app_inputs.specs.SetFile.{FitsFile, IsOfFile};
ghost use Rattle.app_inputs.specs.Views.{Reads};

use crate::input_error::InputError;
use crate::set_files::{SetFile, set_rows};
use app_job_file::Mention;
use base_columns::Rows;
use base_io::Files;
use base_refusals::{LineRefusal, RefreshFile};
use sql_ast::{RefreshKind, Statement};
use std::alloc::{AllocError, Global};
use store_refresh_entries::{refreshes_of_files_are_readable, refreshes_of_files_are_short};
use store_state::Refresh;

/// An insert of what these files hold: a bad line of the orders comes before one of the lineitems.
#[tactic(auto, using(crate::proofs::Storable::stored))]
fn insert_of(
    alloc: Global,
    set: u32,
    orders: Result<Rows, LineRefusal>,
    lineitems: Result<Rows, LineRefusal>,
) -> Result<Refresh, AllocError>
    requires orders { FitsFile Orders orders }
    requires lineitems { FitsFile Lineitem lineitems }
    requires orders_given { IsOfFile Orders orders }
    requires lineitems_given { IsOfFile Lineitem lineitems }
    ensures refresh { IfOk result (λ refresh. refresh ≡ insert_of set orders lineitems) }
    ensures storable { IfOk result MayBeStored }
{
    refreshes_of_files_are_readable();
    refreshes_of_files_are_short();
    let orders = match orders {
        Ok(orders) => orders,
        Err(first) => return Ok(Refresh::malformed(RefreshFile::Orders, set, first)),
    };
    match lineitems {
        Ok(lineitems) => {
            let refresh = Refresh::insert(alloc, orders, lineitems)?;
            Ok(refresh)
        }
        Err(first) => Ok(Refresh::malformed(RefreshFile::Lineitem, set, first)),
    }
}

/// A delete of what this file holds.
#[tactic(auto, using(crate::proofs::Storable::stored))]
fn delete_of(
    alloc: Global,
    set: u32,
    keys: Result<Rows, LineRefusal>,
) -> Result<Refresh, AllocError>
    requires keys { FitsFile Delete keys }
    requires given { IsOfFile Delete keys }
    ensures refresh { IfOk result (λ refresh. refresh ≡ delete_of set keys) }
    ensures storable { IfOk result MayBeStored }
{
    refreshes_of_files_are_readable();
    refreshes_of_files_are_short();
    match keys {
        Ok(keys) => {
            let refresh = Refresh::delete_rows(alloc, &keys)?;
            Ok(refresh)
        }
        Err(first) => Ok(Refresh::malformed(RefreshFile::Delete, set, first)),
    }
}

/// An insert of what its files in the folder hold.
fn read_insert<F: Files>(
    alloc: Global,
    files: &mut F,
    folder: &str,
    known: &mut Vec<SetFile>,
    set: u32,
) -> Result<Refresh, InputError>
    requires known { AreKnown folder.now (F.held files.old) known.old.items }
    ensures known { OnOk result (AreKnown folder.now (F.held files.old) known.new.items) }
    ensures input { Reads (λ refresh. refresh) (F.held files.old)
        (refresh_in folder.now RefreshKind.Insert set) result }
    ensures storable { IfOk result MayBeStored }
    ensures files { FilesAfterInput F.held F.faults F.misses result files.old files.new }
{
    let orders = set_rows(alloc, files, folder, known, RefreshFile::Orders, set)?;
    let lineitems = set_rows(alloc, files, folder, known, RefreshFile::Lineitem, set)?;
    let refresh = insert_of(alloc, set, orders, lineitems)?;
    Ok(refresh)
}

/// A delete of what its file in the folder holds.
fn read_delete<F: Files>(
    alloc: Global,
    files: &mut F,
    folder: &str,
    known: &mut Vec<SetFile>,
    set: u32,
) -> Result<Refresh, InputError>
    requires known { AreKnown folder.now (F.held files.old) known.old.items }
    ensures known { OnOk result (AreKnown folder.now (F.held files.old) known.new.items) }
    ensures input { Reads (λ refresh. refresh) (F.held files.old)
        (refresh_in folder.now RefreshKind.Delete set) result }
    ensures storable { IfOk result MayBeStored }
    ensures files { FilesAfterInput F.held F.faults F.misses result files.old files.new }
{
    let keys = set_rows(alloc, files, folder, known, RefreshFile::Delete, set)?;
    let refresh = delete_of(alloc, set, keys)?;
    Ok(refresh)
}

/// A refresh of what its files in the folder hold.
fn read_refresh<F: Files>(
    alloc: Global,
    files: &mut F,
    folder: &str,
    known: &mut Vec<SetFile>,
    mention: Mention,
) -> Result<Refresh, InputError>
    requires known { AreKnown folder.now (F.held files.old) known.old.items }
    ensures known { OnOk result (AreKnown folder.now (F.held files.old) known.new.items) }
    ensures input { Reads (λ refresh. refresh) (F.held files.old)
        (refresh_in folder.now mention.change mention.set) result }
    ensures storable { IfOk result MayBeStored }
    ensures files { FilesAfterInput F.held F.faults F.misses result files.old files.new }
{
    match mention.change {
        RefreshKind::Insert => read_insert(alloc, files, folder, known, mention.set),
        RefreshKind::Delete => read_delete(alloc, files, folder, known, mention.set),
    }
}

/// Appends the refresh that a statement names, if it names one.
fn put_mention(mentions: &mut Vec<Mention>, statement: &Statement) -> Result<(), AllocError>
    ensures { OnOk result (mentions.new.items ≡ mentions.old.items ++ mention_of statement.now) }
{
    match statement {
        Statement::Refresh(change, set) => {
            mentions.push(Mention {
                change: *change,
                set: *set,
            })?;
            Ok(())
        }
        Statement::Query(_)
        | Statement::CreateView(_, _, _)
        | Statement::DropView(_)
        | Statement::Run(_, _) => Ok(()),
    }
}

/// The refreshes that statements name, in their order.
pub fn mentions_of(alloc: Global, steps: &[Statement]) -> Result<Vec<Mention>, AllocError>
    ensures { IfOk result (λ mentions. mentions.items ≡ mentions_of steps.now) }
{
    let mut mentions = Vec::new(alloc);
    for statement in steps {
        put_mention(&mut mentions, statement)?;
    }
    Ok(mentions)
}

/// These refreshes, of what their files in the folder hold. Each file is read once, where it is
/// first named.
pub fn read_refreshes<F: Files>(
    alloc: Global,
    files: &mut F,
    folder: &str,
    mentions: &[Mention],
) -> Result<Vec<Refresh>, InputError>
    ensures input { Reads vec_items (F.held files.old) (changes_in folder.now mentions.now) result }
    ensures length { IfOk result (λ list. length list.items ≡ length mentions.now) }
    ensures storable { IfOk result (λ list. AllByRecursion MayBeStored list.items) }
    ensures files { FilesAfterInput F.held F.faults F.misses result files.old files.new }
{
    let mut known = Vec::new(alloc);
    let mut list = Vec::new(alloc);
    for mention in mentions {
        let refresh = read_refresh(alloc, files, folder, &mut known, *mention)?;
        list.push(refresh)?;
    }
    Ok(list)
}
