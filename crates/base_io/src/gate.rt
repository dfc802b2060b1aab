//! A gate that sessions pass between their statements, so that a test can order them.

/// Passed at each turn of a session (`who` from 1) or of the publisher (`who` 0). Nothing is
/// promised of a turn but that the call returns.
pub trait Gate {
    /// `who` comes to that turn.
    fn pass(&self, who: u32, turn: u64);
}

/// A gate that holds nobody up.
#[derive(Clone, Copy, Debug)]
pub struct OpenGate;

impl Gate for OpenGate {
    fn pass(&self, _who: u32, _turn: u64) {}
}
