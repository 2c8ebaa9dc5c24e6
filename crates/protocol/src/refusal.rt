// Why a call of a group is refused.
ghost use Rattle.std.specs.Prelude.{◌≡◌, Some};
ghost use Rattle.protocol.specs.Answers.{refusal_number};
ghost use Rattle.protocol.specs.Texts.{refusal_text};

use std::fmt;

/// The question that was answered no, by its number, in the order in which they are put.
#[derive(Clone, Copy, Debug, PartialEq, Eq)]
pub enum Refusal {
    /// The party is not one of the plan's.
    NoSuchParty = 6,
    /// The kind of the group does not allow the call.
    KindForbids = 7,
    /// The party or the root is not in the state that the call wants.
    WrongState = 8,
    /// The leg is none of the three, or holds no beat.
    NoBeat = 9,
    /// The clock has come to its end.
    ClockAtEnd = 10,
    /// A due beat is still on its leg: the clock is its last tick.
    BeatDue = 11,
    /// The log has not as many free slots as the call may need.
    NoSlot = 12,
    /// The log is not the one that the group wrote.
    LogDiffers = 13,
}

impl Refusal {
    /// The number of the question that was answered no.
    pub fn number(self) -> u8
        ensures { result ≡ refusal_number self }
    {
        self as u8
    }
}

// The question that was answered no.
impl fmt::Display for Refusal {
    ghost output = { λ x. Some (refusal_text x) };

    fn fmt<W: fmt::Write>(&self, f: &mut fmt::Formatter<W>) -> fmt::Result {
        f.write_str(match self {
            Refusal::NoSuchParty => "does the plan have this party?",
            Refusal::KindForbids => "can this be done in a group of this kind?",
            Refusal::WrongState => "is the party, or the root, where this can happen to it?",
            Refusal::NoBeat => "is it one of the three legs, and does it hold a beat?",
            Refusal::ClockAtEnd => "is the clock still short of 4000000000?",
            Refusal::BeatDue => "is every beat off its leg whose last tick this is?",
            Refusal::NoSlot => "is there room in the log?",
            Refusal::LogDiffers => "is this the log that the group wrote?",
        })
    }
}
