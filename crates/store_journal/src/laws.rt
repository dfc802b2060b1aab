//! What a file of a journal stands for, there is only one of.
ghost use Rattle.std.specs.Prelude.{◌≡◌, ◌⊎◌, ◌++◌, [], ◌∷◌, ℕ, List, length, take, ◌≤◌};
ghost use Rattle.base_disk.specs.Disk.{Torn};
ghost use Rattle.store_journal.specs.Format.{StandsFor, IsBad, framed};
ghost use Rattle.store_journal.specs.Journal.{StandsForSome, WithOrWithout};

use crate::payload::Payload;

/// A file stands for at most one list of payloads, and for none where it is bad, which it is at one
/// place.
pub fn one_reading<P: Payload>()
    ensures same { (file : List ℕ) (ps qs : List (List ℕ))
        → StandsFor P.is_payload file ps → StandsFor P.is_payload file qs → ps ≡ qs }
    ensures apart { (file : List ℕ) (ps : List (List ℕ)) (place : ℕ)
        → StandsFor P.is_payload file ps → IsBad P.is_payload file place → ⊥ }
    ensures place { (file : List ℕ) (here there : ℕ)
        → IsBad P.is_payload file here → IsBad P.is_payload file there → here ≡ there }
{}

/// What a crash may have left is read as the refreshes from before it, with the one that was being
/// added or without; and as some of those that were tried, none skipped. It is never bad.
pub fn after_crash<P: Payload>()
    ensures one { (c : List ℕ) (ps qs : List (List ℕ)) (p : List ℕ)
        → WithOrWithout P.is_payload ps p c → StandsFor P.is_payload c qs
        → (qs ≡ ps) ⊎ (qs ≡ ps ++ p ∷ []) }
    ensures some { (c : List ℕ) (least : ℕ) (ps qs tried : List (List ℕ))
        → StandsForSome P.is_payload least ps tried c → StandsFor P.is_payload c qs
        → (k : ℕ) × (least ≤ k) × (k ≤ length tried) × (qs ≡ ps ++ take k tried) }
    ensures one_read { (c : List ℕ) (ps : List (List ℕ)) (p : List ℕ) (place : ℕ)
        → WithOrWithout P.is_payload ps p c → IsBad P.is_payload c place → ⊥ }
    ensures some_read { (c : List ℕ) (least : ℕ) (ps tried : List (List ℕ)) (place : ℕ)
        → StandsForSome P.is_payload least ps tried c → IsBad P.is_payload c place → ⊥ }
{}

/// Why the gate is opened by a write of its own: one write of a whole entry over the closed gate of
/// an empty journal may leave a file that is bad, and no sync behind it helps.
pub fn one_write_is_bad<P: Payload>()
    ensures { (p : List ℕ) → (c : List ℕ)
        × Torn 0 (length (1 ∷ (framed p ++ 0 ∷ []))) (0 ∷ []) c × IsBad P.is_payload c 0 }
{}
