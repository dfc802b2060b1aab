//! A sink that takes text piece by piece.
ghost use Rattle.std.specs.Prelude.{ℕ, List, Option};
ghost use Rattle.base_io.specs.Outside.{Counts, IsPutFault, Takes};

/// What putting a piece answers.
#[derive(Clone, Copy, Debug, PartialEq, Eq)]
pub enum Put {
    /// How many bytes from the piece's front were taken. None of a piece that isn't empty is a
    /// fault.
    Took(usize),
    /// Nothing was taken.
    Failed,
    /// A sink in memory couldn't grow; nothing was taken, and it is no fault.
    OutOfMemory,
}

/// Takes bytes in their order.
///
/// A failure, and no byte taken of a piece that isn't empty, comes only where the count of faults
/// rose, or stands at its last value, 2^64 - 1.
pub trait Sink {
    /// The bytes taken so far, where they are known.
    ghost taken: { Self → Option (List ℕ) };

    /// How many calls failed.
    ghost faults: { Self → ℕ };

    /// Takes bytes from the piece's front, and says how many.
    fn put(&mut self, piece: &[u8]) -> Put
        ensures bytes { Takes (taken self.old) (taken self.new) result piece.now }
        ensures faults { Counts (IsPutFault result piece.now) (faults self.old) (faults self.new) };
}
