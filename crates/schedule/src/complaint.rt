// What can be wrong with a text.
ghost use Rattle.std.specs.Prelude.{◌≡◌};
ghost use Rattle.schedule.specs.Causes.{complaint_number, refusal_cause};
ghost use Rattle.schedule.specs.Misfits.{is_about_word};

use slots::refusal::Refusal;

/// What is wrong with a line, or with the text as a whole.
#[derive(Clone, Copy, Debug, PartialEq, Eq)]
pub enum Cause {
    /// The line ends where a word is due.
    MissingWord,
    /// A word means nothing in its place.
    UnknownWord,
    /// A number is due, and the word has a byte that is no digit.
    NotANumber,
    /// The number is above the largest that its place takes.
    NumberTooLarge,
    /// The line goes on where it should end.
    WordTooMany,
    /// The order's tick is before that of the order in front of it.
    EarlierTick,
    /// Every slot for orders is taken.
    NoSlot,
    /// No line has a word.
    NoStart,
    /// The order file is longer than the output.
    NoRoom,
}

impl Cause {
    /// The number of the question that was answered no.
    pub fn number(self) -> u8
        ensures { result ≡ complaint_number self }
    {
        match self {
            Cause::MissingWord | Cause::WordTooMany | Cause::NoStart => 15,
            Cause::UnknownWord | Cause::NotANumber | Cause::NumberTooLarge => 16,
            Cause::NoSlot | Cause::NoRoom => 12,
            Cause::EarlierTick => 14,
        }
    }

    /// Is a word of the line wrong, or missing? Which one it is `find_misfit` tells.
    pub fn is_about_word(self) -> bool
        ensures { result ≡ is_about_word self }
    {
        match self {
            Cause::MissingWord
            | Cause::UnknownWord
            | Cause::NotANumber
            | Cause::NumberTooLarge
            | Cause::WordTooMany => true,
            Cause::EarlierTick | Cause::NoSlot | Cause::NoStart | Cause::NoRoom => false,
        }
    }
}

/// The first thing that is wrong with a text.
#[derive(Clone, Copy, Debug, PartialEq, Eq)]
pub struct Complaint {
    /// Counted from 1. What the text lacks as a whole is told of the line behind its last.
    pub line: usize,
    pub cause: Cause,
}

impl From<Refusal> for Cause {
    ghost from_gives = { λ x c. c ≡ refusal_cause x };

    fn from(refusal: Refusal) -> Cause {
        match refusal {
            Refusal::NoSlot => Cause::NoSlot,
            Refusal::Earlier => Cause::EarlierTick,
        }
    }
}
