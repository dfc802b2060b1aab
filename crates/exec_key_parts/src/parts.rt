//! The parts that keys go to by their hashes.
ghost use Rattle.std.specs.Prelude.{◌≡◌, ◌<◌};
ghost use Rattle.exec_key_parts.specs.KeyParts.{key_part};

use std::hash::{FoldHasher, Hash, Hasher};

/// The part of a key among `count`, by the upper half of its hash: a table of keys takes the lower
/// bits.
pub(crate) fn key_part<K: Hash>(key: &K, count: usize) -> usize
    requires { 0 < count }
    ensures value { result ≡ key_part K.hash_input count key.now }
    ensures within { result < count }
{
    let mut state = FoldHasher::default();
    key.hash(&mut state);
    ((state.finish() >> 32) & (count as u64 - 1)) as usize
}
