//! Bytes behind their length in 8 bytes, high byte first.
ghost use Rattle.std.specs.Prelude.{◌≡◌, ◌<◌, ◌^◌, ◌++◌, ℕ, List, length, OnOk, IfSome, IfNone};
ghost use Rattle.store_journal.specs.Format.{framed};

use std::alloc::AllocError;

/// Appends the bytes behind their length.
pub fn push_framed(text: &mut Vec<u8>, bytes: &[u8]) -> Result<(), AllocError>
    ensures { OnOk result (text.new.items ≡ text.old.items ++ framed bytes.now) }
{
    text.extend_from_slice(&(bytes.len() as u64).to_be_bytes())?;
    text.extend_from_slice(bytes)
}

/// As many bytes as the length at the front says, and what stands behind them.
pub fn next_frame(bytes: &[u8]) -> Option<(&[u8], &[u8])>
    ensures some { IfSome result (λ r. (length r.0.now < 2 ^ 64)
        × (bytes.now ≡ framed r.0.now ++ r.1.now)) }
    ensures none { IfNone result ((front rest : List ℕ) → length front < 2 ^ 64
        → bytes.now ≡ framed front ++ rest → ⊥) }
{
    if bytes.len() < 8 {
        return None;
    }
    let (front, behind) = bytes.split_at(8);
    let len = u64::from_be_bytes([
        front[0], front[1], front[2], front[3], front[4], front[5], front[6], front[7],
    ]) as usize;
    if behind.len() < len {
        return None;
    }
    Some(behind.split_at(len))
}
