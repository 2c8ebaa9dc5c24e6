// The calls of a group as values, so that a run can be written down.
use crate::refusal::Refusal;

/// A call by its value: a party by its number (0 is the root), a leg by its own (1 to 3). Any
/// number may be asked for; the call's questions refuse a wrong one.
#[derive(Clone, Copy, Debug, PartialEq, Eq)]
pub enum Call {
    Tick,
    /// Party and leg.
    Deliver(u8, u8),
    /// Party and leg.
    Lose(u8, u8),
    /// A party, or the root.
    Crash(u8),
    Join(u8),
    Leave(u8),
}

/// A call of a run, and the answer that it got.
#[derive(Clone, Copy, Debug, PartialEq, Eq)]
pub struct Step {
    pub call: Call,
    pub answer: Result<(), Refusal>,
}
