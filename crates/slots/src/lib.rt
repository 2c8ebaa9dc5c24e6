// A list of records in slots that the caller lends.
#![tactic(auto)]

ghost use Rattle.std.specs.Prelude.{◌≤◌, length};

pub mod list;
pub mod refusal;
pub mod timed;

/// A list in slots that were lent: the first slots hold its records, the oldest in front, and the
/// others are spare.
///
/// A record may be of any type; `append` wants one that tells its tick.
#[derive(Drop)]
pub struct SlotList<'a, T> {
    slots: &'a mut [T],
    len: usize,
    ghost within: { len ≤ length slots.now },
}
