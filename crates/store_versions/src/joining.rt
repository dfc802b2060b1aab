//! Parts of a table joined into whole segments.
ghost use Rattle.std.specs.Prelude.{◌≡◌, ◌<◌, ◌≤◌, ◌++◌, ◌∷◌, [], IfOk, OnOk, length};
ghost use Rattle.std.specs.List.{All};
ghost use Rattle.base_columns.specs.Lists.{one_list};
ghost use Rattle.base_columns.specs.Tables.{IsOpen, plain_rows};
ghost use Rattle.store_versions.specs.Segments.{AreJoined};
ghost use Rattle.store_versions.specs.Joining.{HasRoom, IsJoining};

use crate::scan::piece_of;
use base_columns::{Bag, SEGMENT_ROWS, Segment};
use std::alloc::{AllocError, Global};
use store_state::Part;

/// The rows that are not stored yet, as a segment.
fn stored(alloc: Global, rest: &Bag) -> Result<Segment, AllocError>
    requires is_open { IsOpen rest.now }
    requires some { 0 < length rest.now.rows }
    ensures { IfOk result (λ segment. segment ≡ plain_rows rest.now.rows) }
{
    let segment = Segment::new(alloc, rest.whole(alloc)?)?;
    Ok(segment)
}

/// Stores the rows that are not stored yet as the next segment.
fn close_rest(alloc: Global, full: &mut Vec<Segment>, rest: &mut Bag) -> Result<(), AllocError>
    requires is_open { IsOpen rest.old }
    requires some { 0 < length rest.old.rows }
    ensures full { OnOk result (full.new.items ≡ full.old.items ++ plain_rows rest.old.rows ∷ []) }
    ensures rest { OnOk result (rest.new.rows ≡ []) }
    ensures width { OnOk result (rest.new.width ≡ rest.old.width) }
{
    full.push(stored(alloc, rest)?)?;
    *rest = Bag::new(alloc, rest.width());
    Ok(())
}

/// Makes room for `count` rows after those that are not stored yet: these become a segment of their
/// own, if they don't fit in one with them.
#[tactic(auto, using(crate::proofs::Neighbours::neighbours))]
fn make_room(
    alloc: Global,
    count: usize,
    full: &mut Vec<Segment>,
    rest: &mut Bag,
) -> Result<(), AllocError>
    requires joining { IsJoining full.old.items rest.old }
    requires count { count ≤ 4096 }
    ensures room { OnOk result
        (HasRoom count full.old.items rest.old full.new.items rest.new) }
{
    if rest.len() + count <= SEGMENT_ROWS {
        return Ok(());
    }
    close_rest(alloc, full, rest)?;
    Ok(())
}

/// Puts the rows of a part after those that are not stored yet.
fn put_part(
    alloc: Global,
    part: &Part,
    full: &mut Vec<Segment>,
    rest: &mut Bag,
) -> Result<(), AllocError>
    requires joining { IsJoining full.old.items rest.old }
    requires width { All (λ row. length row ≡ rest.old.width) part.now }
    ensures joining { OnOk result (IsJoining full.new.items rest.new) }
    ensures width { OnOk result (rest.new.width ≡ rest.old.width) }
    ensures rows { OnOk result
        (one_list full.new.items ++ plain_rows rest.new.rows
        ≡ (one_list full.old.items ++ plain_rows rest.old.rows) ++ part.now) }
{
    let count = part.len();
    if count == 0 {
        return Ok(());
    }
    let piece = piece_of(alloc, part)?;
    let batch = piece.batch(alloc)?;
    make_room(alloc, count, full, rest)?;
    rest.push(batch)?;
    Ok(())
}

/// The full segments, and one of the rows that are not stored yet, if there are any.
#[tactic(auto, using(crate::proofs::Neighbours::neighbours))]
fn finished(alloc: Global, mut full: Vec<Segment>, rest: &Bag) -> Result<Vec<Segment>, AllocError>
    requires { IsJoining full.items rest.now }
    ensures rows { IfOk result
        (λ segments. one_list segments.items ≡ one_list full.items ++ plain_rows rest.now.rows) }
    ensures joined { IfOk result (λ segments. AreJoined segments.items) }
{
    if rest.len() == 0 {
        return Ok(full);
    }
    full.push(stored(alloc, rest)?)?;
    Ok(full)
}

/// Joins parts of this width into segments; no two neighbours would fit in one. A segment of which
/// no row is deleted and that has no neighbour to join is shared.
pub(crate) fn joined(
    alloc: Global,
    width: usize,
    parts: &[Part],
) -> Result<Vec<Segment>, AllocError>
    requires { All (λ row. length row ≡ width) (one_list parts.now) }
    ensures rows { IfOk result (λ segments. one_list segments.items ≡ one_list parts.now) }
    ensures joined { IfOk result (λ segments. AreJoined segments.items) }
{
    let mut full = Vec::new(alloc);
    let mut rest = Bag::new(alloc, width);
    for part in parts {
        put_part(alloc, part, &mut full, &mut rest)?;
    }
    let segments = finished(alloc, full, &rest)?;
    Ok(segments)
}
