//! Refreshes as the payloads of a journal.
ghost use Rattle.std.specs.Prelude.{◌≡◌, ◌++◌, OnOk, IfOk, IfSome, IfNone};
ghost use Rattle.store_state.specs.Refresh.{InsertRows};
ghost use Rattle.store_refresh_entries.specs.Change.{IsReadable, IsSpelled, spelling_of};
ghost use Rattle.store_refresh_text.specs.Text.{rows_text};

use crate::reading::parsed;
use base_columns::Rows;
use std::alloc::{AllocError, Global};
use store_journal::{Payload, push_framed};
use store_refresh_text::{push_keys, push_rows};
use store_state::{Action, Refresh};

/// How a journal keeps refreshes: the rows of an insert or the keys of a delete, as the texts of
/// files. A malformed refresh is no payload.
pub struct RefreshPayload;

/// The lines of rows, as a text of their own.
fn text_of(alloc: Global, rows: &Rows) -> Result<Vec<u8>, AllocError>
    ensures { IfOk result (λ text. text.items ≡ rows_text rows.now) }
{
    let mut text = Vec::new(alloc);
    push_rows(&mut text, rows)?;
    Ok(text)
}

/// Appends the spelling of an insert.
fn push_insert(bytes: &mut Vec<u8>, orders: &Rows, lineitems: &Rows) -> Result<(), AllocError>
    ensures { OnOk result (bytes.new.items
        ≡ bytes.old.items ++ spelling_of (InsertRows orders.now lineitems.now)) }
{
    let alloc = *bytes.allocator();
    let orders = text_of(alloc, orders)?;
    bytes.push(1)?;
    push_framed(bytes, &orders)?;
    push_rows(bytes, lineitems)
}

/// Appends the bytes that spell a refresh; a malformed one has none.
#[tactic(auto, using(crate::proofs::Readings::spells))]
fn push_refresh(bytes: &mut Vec<u8>, refresh: &Refresh) -> Result<(), AllocError>
    ensures { OnOk result (bytes.new.items ≡ bytes.old.items ++ spelling_of refresh.now) }
{
    match refresh.action() {
        Action::Insert(orders, lineitems) => push_insert(bytes, orders, lineitems),
        Action::Delete(keys) => {
            bytes.push(2)?;
            push_keys(bytes, keys)
        }
        Action::Malformed(_, _, _) => Ok(()),
    }
}

impl Payload for RefreshPayload {
    type Value = Refresh;

    ghost spelling = { spelling_of };

    ghost is_payload = { IsSpelled };

    ghost is_value = { IsReadable };

    fn read(alloc: Global, bytes: &[u8]) -> Result<Option<Refresh>, AllocError> {
        let Some(refresh) = parsed(alloc, bytes)? else {
            return Ok(None);
        };
        let mut again = Vec::with_capacity(alloc, bytes.len())?;
        push_refresh(&mut again, &refresh)?;
        if again.as_slice() != bytes {
            return Ok(None);
        }
        Ok(Some(refresh))
    }

    fn spell(value: &Refresh, bytes: &mut Vec<u8>) -> Result<(), AllocError> {
        push_refresh(bytes, value)
    }
}
