// The places of the words on a line, and what is wrong with a word at its place.
ghost use Rattle.std.specs.Prelude.{◌≡◌};
ghost use Rattle.std.specs.Option.{option_map};
ghost use Rattle.std.specs.Prelude.{drop};
ghost use Rattle.schedule.specs.Cuts.{line_words};
ghost use Rattle.schedule.specs.Places.{fault, order_places, second_kind};

use crate::complaint::Cause;
use crate::kinds::{cap_word, group_kind, order_kind, pace_kind};
use crate::number::number;
use crate::words::Words;
use orders::order::OrderKind;

/// A place on a line, by what is due there.
#[derive(Clone, Copy, Debug, PartialEq, Eq)]
pub enum Place {
    /// the word of a group's kind
    GroupKind,
    /// how many parties there are
    Parties,
    /// the word of a pace
    Pace,
    Tmin,
    Tmax,
    /// the word in front of the cap
    CapWord,
    Cap,
    Tick,
    /// the word of an order's kind
    OrderKind,
    Party,
    Leg,
    /// no word
    End,
}

// Those of a start.
pub(crate) const START_PLACES: [Place; 8] = [
    Place::GroupKind,
    Place::Parties,
    Place::Pace,
    Place::Tmin,
    Place::Tmax,
    Place::CapWord,
    Place::Cap,
    Place::End,
];

impl Place {
    // What is wrong with a word at this place, or with there being none.
    pub(crate) fn fault(self, word: Option<&[u8]>) -> Option<Cause>
        ensures { result ≡ fault self (option_map (λ w. w.now) word.entry) }
    {
        let Some(word) = word else {
            return (self != Place::End).then_some(Cause::MissingWord);
        };
        match self {
            Place::GroupKind => group_kind(word).err(),
            Place::Pace => pace_kind(word).err(),
            Place::CapWord => cap_word(word).err(),
            Place::OrderKind => order_kind(word).err(),
            Place::Parties | Place::Cap | Place::Party | Place::Leg => number(word, 255).err(),
            Place::Tmin | Place::Tmax | Place::Tick => number(word, u32::MAX).err(),
            Place::End => Some(Cause::WordTooMany),
        }
    }
}

// Those of an order, as far as its second word tells its kind.
pub(crate) fn order_places(line: &[u8]) -> &'static [Place]
    ensures { result.now ≡ order_places (second_kind (line_words line.now)) }
{
    let mut words = Words::new(line);
    words.next();
    match words.order_kind() {
        Ok(OrderKind::Deliver | OrderKind::Lose) => &[
            Place::Tick,
            Place::OrderKind,
            Place::Party,
            Place::Leg,
            Place::End,
        ],
        Ok(OrderKind::Crash | OrderKind::Join | OrderKind::Leave) => {
            &[Place::Tick, Place::OrderKind, Place::Party, Place::End]
        }
        Ok(OrderKind::Wait) => &[Place::Tick, Place::OrderKind, Place::End],
        Err(_) => &[Place::Tick, Place::OrderKind],
    }
}
