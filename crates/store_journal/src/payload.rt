//! What an entry of a journal holds.
ghost use Rattle.std.specs.Prelude.{◌≡◌, ◌++◌, ℕ, List, IfOk, IfSome, IfNone, OnOk};

use std::alloc::{AllocError, Global};

/// How a journal keeps its values: each is spelled as bytes, and read back from them.
pub trait Payload {
    /// What an entry keeps.
    type Value: Drop;

    /// The bytes that spell the value.
    ghost spelling: { Self.Value → List ℕ };

    /// These bytes spell some value that is read back.
    ghost is_payload: { List ℕ → Type 0 };

    /// The value is one that is read back.
    ghost is_value: { Self.Value → Type 0 };

    /// The value that the bytes spell, if they spell one.
    fn read(alloc: Global, bytes: &[u8]) -> Result<Option<Self::Value>, AllocError>
        ensures some { IfOk result (λ found. IfSome found (λ value. (spelling value ≡ bytes.now)
            × is_payload bytes.now × is_value value)) }
        ensures none { IfOk result (λ found. IfNone found (is_payload bytes.now → ⊥)) };

    /// Spells the value behind the bytes so far.
    fn spell(value: &Self::Value, bytes: &mut Vec<u8>) -> Result<(), AllocError>
        ensures { OnOk result (bytes.new.items ≡ bytes.old.items ++ spelling value.now) };
}
