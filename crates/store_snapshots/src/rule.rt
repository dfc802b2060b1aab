//! The rule over the published version and what is known of it, and the steps that keep it.
ghost use Rattle.std.specs.Prelude.{◌≡◌, ◌≤◌, ◌<◌, ◌^◌, [], None, IfOk, OnOk, OnErr, IfSome};
ghost use Rattle.std.specs.Arc.{arc_value};
ghost use Rattle.left_right.specs.Sides.{view};
ghost use Rattle.store_snapshots.specs.Rule.{AllFit, KnowsVersion, MayFollow, SeesVersion, entered};
ghost use Rattle.store_snapshots.specs.Rule.{named_only, on_shelf, own_view};

use crate::shelf::{Shelf, ShelfView};
use atomic_table::{Join, Split};
use crossbeam_utils::rule::{Outcome, Protocol};
use left_right::reader::Reader;
use left_right::writer::Writer;
use std::alloc::{AllocError, Global};
use std::sync::{Arc, Wait};
use store_versions::{Attachment, Directory};

/// The rule: what is known is true of the published version.
pub struct Versions;

impl<A: Attachment> Protocol<Shelf<A>, ShelfView> for Versions {
    ghost holds = { λ s. AllFit (on_shelf s) };

    ghost first = { record { opening = None; list = []; number = 0 } };
}

/// An entry sees the list and the number of the published version.
pub struct Seeing;

impl<A: Attachment> Outcome<Shelf<A>, ShelfView> for Seeing {
    ghost then = { λ v x y w. SeesVersion v (on_shelf y) w };
}

/// The writer names the opening of its first version.
pub struct Naming;

impl<A: Attachment> Outcome<Shelf<A>, ShelfView> for Naming {
    ghost then = { λ v x y w. KnowsVersion (on_shelf y) w };
}

/// The writer shows a version.
pub struct Showing;

impl<A: Attachment> Outcome<Shelf<A>, ShelfView> for Showing {
    ghost then = { λ v x y w. w ≡ entered v (on_shelf y) };
}

/// The writer tells what it knows.
pub struct Telling;

impl Split<ShelfView> for Telling {
    ghost left = { λ v. v };

    ghost right = { λ v. v };
}

/// A reader takes over the opening and the list that it is told, and no number.
pub struct Joining;

impl Join<ShelfView> for Joining {
    ghost both = { λ v w. named_only w };

    ghost spent = { record { opening = None; list = []; number = 0 } };
}

pub(crate) type ShelfReader<A> = Reader<Shelf<A>, ShelfView, Versions>;

pub(crate) type ShelfWriter<A> = Writer<Shelf<A>, Shelf<A>, ShelfView, Versions>;

/// A writer of one version, which knows it.
pub(crate) fn start<A: Attachment, R: Wait>(
    rt: &R,
    alloc: Global,
    directory: Arc<Directory<A>>,
    readers: usize,
) -> Option<ShelfWriter<A>>
    requires { (1 ≤ readers) × (readers < 2 ^ 32) }
    ensures { IfSome result (λ w. (on_shelf w.desk.shown.value ≡ arc_value directory)
        × (view w.desk.place ≡ own_view (arc_value directory))) }
{
    let second = Arc::try_clone(&directory).ok()?;
    let writer: ShelfWriter<A> = Writer::new(
        alloc,
        Shelf { directory },
        Shelf { directory: second },
        readers,
    )
    .ok()?;
    let (writer, shown) = writer.publish_as::<Naming, R>(rt);
    match shown {
        Ok(()) => Some(writer),
        Err(_) => {
            drop(writer.take(rt));
            None
        }
    }
}

/// A reader that knows the opening and the list of the writer's versions, but none of their
/// numbers.
pub(crate) fn joined<A: Attachment>(
    writer: &mut ShelfWriter<A>,
) -> Result<ShelfReader<A>, AllocError>
    ensures joined { IfOk result (λ r. view r.place ≡ named_only (view writer.old.desk.place)) }
    ensures kept { (view writer.new.desk.place ≡ view writer.old.desk.place)
        × (writer.new.desk.shown ≡ writer.old.desk.shown) }
{
    let mut reader = writer.factory().reader()?;
    reader.learn::<Joining>(writer.tell::<Telling>());
    Ok(reader)
}

/// Shows readers a version that may follow, whole or not at all.
pub(crate) fn publish<A: Attachment, R: Wait>(
    mut writer: ShelfWriter<A>,
    next: (&R, Arc<Directory<A>>),
) -> (ShelfWriter<A>, Result<(), AllocError>)
    requires { MayFollow (on_shelf writer.desk.shown.value) (arc_value next.1) }
    ensures shown { OnOk result.1 ((on_shelf result.0.desk.shown.value ≡ arc_value next.entry.1)
        × (view result.0.desk.place ≡ entered (view writer.desk.place) (arc_value next.entry.1))) }
    ensures kept { OnErr result.1 ((result.0.desk.shown.value ≡ writer.desk.shown.value)
        × (view result.0.desk.place ≡ view writer.desk.place)) }
{
    let (rt, directory) = next;
    if writer.append(Shelf { directory }).is_err() {
        return (writer, Err(AllocError));
    }
    writer.publish_as::<Showing, R>(rt)
}
