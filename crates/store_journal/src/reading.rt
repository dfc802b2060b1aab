//! Reading the bytes of a journal.
ghost use Rattle.std.specs.List.{AllByRecursion};
ghost use Rattle.std.specs.Prelude.{◌≡◌, ◌≢◌, ◌≤◌, ◌⊎◌, [], ◌∷◌, true, false, drop, ℕ, List};
ghost use Rattle.std.specs.Prelude.{◌++◌, length, map, IfOk, IfErr, IfSome, IfNone};
ghost use Rattle.store_journal.specs.Format.{StandsFor, IsEntry, NoEntry, entries, framed};
ghost use Rattle.store_journal.specs.Reading.{FailsAt};

use crate::fault::ReadError;
use crate::frame::next_frame;
use crate::payload::Payload;
use std::alloc::{AllocError, Global};

/// The values of a journal, and the place of its closed gate.
#[derive(Drop)]
pub(crate) struct Found<V> {
    pub values: Vec<V>,
    pub end: usize,
}

/// Whether an open gate stands at the front.
fn is_open(bytes: &[u8]) -> bool
    ensures open { result ≡ true → bytes.now ≡ 1 ∷ drop 1 bytes.now }
    ensures shut { result ≡ false → (bytes.now ≡ []) ⊎ ((gate : ℕ) × (rest : List ℕ)
        × (gate ≢ 1) × (bytes.now ≡ gate ∷ rest)) }
{
    !bytes.is_empty() && bytes[0] == 1
}

/// The value of the entry behind an open gate, and what stands behind the entry.
fn next_entry<P: Payload>(
    alloc: Global,
    bytes: &[u8],
) -> Result<Option<(P::Value, &[u8])>, AllocError>
    ensures some { IfOk result (λ found. IfSome found (λ r. IsEntry P.is_payload (P.spelling r.0)
        × (bytes.now ≡ framed (P.spelling r.0) ++ r.1.now) × P.is_value r.0)) }
    ensures none { IfOk result (λ found. IfNone found (NoEntry P.is_payload bytes.now)) }
{
    let Some((payload, rest)) = next_frame(bytes) else {
        return Ok(None);
    };
    match P::read(alloc, payload)? {
        Some(value) => Ok(Some((value, rest))),
        None => Ok(None),
    }
}

/// The values of the payloads that the bytes stand for.
pub(crate) fn read_entries<P: Payload>(
    alloc: Global,
    bytes: &[u8],
) -> Result<Found<P::Value>, ReadError>
    ensures found { IfOk result (λ f. StandsFor P.is_payload bytes.now
        (map P.spelling f.values.items)) }
    ensures values { IfOk result (λ f. AllByRecursion P.is_value f.values.items) }
    ensures within { IfOk result (λ f. f.end ≤ length bytes.now) }
    ensures end { IfOk result (λ f. f.end ≡ length (entries (map P.spelling f.values.items))) }
    ensures bad { IfErr result (FailsAt P.is_payload bytes.now) }
{
    let mut values = Vec::new(alloc);
    let mut left = bytes;
    while is_open(left) {
        let (_, behind) = left.split_at(1);
        let Some((value, rest)) = next_entry::<P>(alloc, behind)? else {
            return Err(ReadError::Bad(bytes.len() - left.len()));
        };
        values.push(value)?;
        left = rest;
    }
    if left.is_empty() {
        return Err(ReadError::Bad(bytes.len()));
    }
    Ok(Found {
        values,
        end: bytes.len() - left.len(),
    })
}
