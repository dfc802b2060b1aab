//! Reading a refresh back from its bytes.
ghost use Rattle.std.specs.Prelude.{◌≡◌, [], ◌∷◌, IfOk, IfSome, IfNone};
ghost use Rattle.store_refresh_entries.specs.Change.{IsNone, MayBe};

use base_refusals::RefreshFile;
use std::alloc::{AllocError, Global};
use store_journal::next_frame;
use store_refresh_text::rows_of;
use store_state::Refresh;

/// The insert whose texts the bytes are.
#[tactic(auto, using(crate::proofs::Readings::readings))]
fn parsed_insert(alloc: Global, bytes: &[u8]) -> Result<Option<Refresh>, AllocError>
    ensures some { IfOk result (λ found. IfSome found (MayBe (1 ∷ bytes.now))) }
    ensures none { IfOk result (λ found. IfNone found (IsNone (1 ∷ bytes.now))) }
{
    let Some((orders, lineitems)) = next_frame(bytes) else {
        return Ok(None);
    };
    let Some(orders) = rows_of(alloc, RefreshFile::Orders, orders)? else {
        return Ok(None);
    };
    let Some(lineitems) = rows_of(alloc, RefreshFile::Lineitem, lineitems)? else {
        return Ok(None);
    };
    let refresh = Refresh::insert(alloc, orders, lineitems)?;
    Ok(Some(refresh))
}

/// The delete whose text the bytes are.
#[tactic(auto, using(crate::proofs::Readings::readings))]
fn parsed_delete(alloc: Global, bytes: &[u8]) -> Result<Option<Refresh>, AllocError>
    ensures some { IfOk result (λ found. IfSome found (MayBe (2 ∷ bytes.now))) }
    ensures none { IfOk result (λ found. IfNone found (IsNone (2 ∷ bytes.now))) }
{
    let Some(rows) = rows_of(alloc, RefreshFile::Delete, bytes)? else {
        return Ok(None);
    };
    let refresh = Refresh::delete_rows(alloc, &rows)?;
    Ok(Some(refresh))
}

/// The byte at the front, and what stands behind it.
fn cut_tag(bytes: &[u8]) -> Option<(u8, &[u8])>
    ensures some { IfSome result (λ r. bytes.now ≡ r.0 ∷ r.1.now) }
    ensures none { IfNone result (bytes.now ≡ []) }
{
    let [tag, rest @ ..] = bytes else {
        return None;
    };
    Some((*tag, rest))
}

/// The refresh that the bytes may spell: where they spell one, it is this.
#[tactic(auto, using(crate::proofs::Readings::readings))]
pub(crate) fn parsed(alloc: Global, bytes: &[u8]) -> Result<Option<Refresh>, AllocError>
    ensures some { IfOk result (λ found. IfSome found (MayBe bytes.now)) }
    ensures none { IfOk result (λ found. IfNone found (IsNone bytes.now)) }
{
    let Some((tag, rest)) = cut_tag(bytes) else {
        return Ok(None);
    };
    match tag {
        1 => parsed_insert(alloc, rest),
        2 => parsed_delete(alloc, rest),
        _ => Ok(None),
    }
}
