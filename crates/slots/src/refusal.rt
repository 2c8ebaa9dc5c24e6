ghost use Rattle.std.specs.Prelude.{◌≡◌};
ghost use Rattle.slots.specs.Refusals.{slot_refusal_number};

/// Why a record is not appended.
#[derive(Clone, Copy, Debug, PartialEq, Eq)]
pub enum Refusal {
    /// Every slot is taken.
    NoSlot = 12,
    /// The record's tick is before the last record's.
    Earlier = 14,
}

impl Refusal {
    /// The number of the question that was answered no.
    pub fn number(self) -> u8
        ensures { result ≡ slot_refusal_number self }
    {
        self as u8
    }
}
