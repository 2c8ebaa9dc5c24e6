// One party of a group, as itself and as the root notes it.
ghost use Rattle.std.specs.Prelude.{◌≡◌, Some};
ghost use Rattle.protocol.specs.Legs.{leg_numbered};
ghost use Rattle.protocol.specs.Texts.{stage_text, ending_text};

use std::fmt;

/// How far a live party takes part.
#[derive(Clone, Copy, Debug, PartialEq, Eq)]
pub enum Stage {
    Joining,
    In,
    Leaving,
}

impl fmt::Display for Stage {
    ghost output = { λ x. Some (stage_text x) };

    fn fmt<W: fmt::Write>(&self, f: &mut fmt::Formatter<W>) -> fmt::Result {
        f.write_str(match self {
            Stage::Joining => "joining",
            Stage::In => "in",
            Stage::Leaving => "leaving",
        })
    }
}

/// How a party has ended; only a leaving one ends as left.
#[derive(Clone, Copy, Debug, PartialEq, Eq)]
pub enum Ending {
    Crashed,
    Stopped,
    Left,
}

impl fmt::Display for Ending {
    ghost output = { λ x. Some (ending_text x) };

    fn fmt<W: fmt::Write>(&self, f: &mut fmt::Formatter<W>) -> fmt::Result {
        f.write_str(match self {
            Ending::Crashed => "crashed",
            Ending::Stopped => "stopped",
            Ending::Left => "left",
        })
    }
}

/// Where a party stands; one that has ended keeps the tick of its end and its stage before.
#[derive(Clone, Copy, Debug, PartialEq, Eq)]
pub enum Standing {
    Outside,
    Live(Stage),
    Ended(Ending, u32, Stage),
}

/// Whether the root sends to the party: only while it is on the roll. Struck is for good.
#[derive(Clone, Copy, Debug, PartialEq, Eq)]
pub enum Roll {
    Off,
    On,
    Struck,
}

/// The way of a beat, by its number.
#[derive(Clone, Copy, Debug, PartialEq, Eq)]
pub enum Leg {
    /// From the root to a party.
    Out = 1,
    /// Back to the root, with the party's reply.
    Reply = 2,
    /// To the root, by which a party asks to be let in.
    Entry = 3,
}

impl Leg {
    /// The leg of that number; there are three.
    pub fn numbered(number: u8) -> Option<Leg>
        ensures { result ≡ leg_numbered number }
    {
        match number {
            1 => Some(Leg::Out),
            2 => Some(Leg::Reply),
            3 => Some(Leg::Entry),
            _ => None,
        }
    }
}

/// A beat on a leg.
#[derive(Clone, Copy, Debug, PartialEq, Eq)]
pub struct Beat {
    /// The last tick at which it may be delivered or lost.
    pub last: u32,
    /// It takes leave of the root.
    pub parting: bool,
    /// The place of its sending in the log.
    pub place: usize,
}

/// What the root notes of a party.
#[derive(Clone, Copy, Debug, PartialEq, Eq)]
pub struct Note {
    pub roll: Roll,
    /// Heard in the present round.
    pub heard: bool,
    /// Rounds in a row in which it was not heard.
    pub misses: u32,
}

/// What a party knows of itself.
#[derive(Clone, Copy, Debug, PartialEq, Eq)]
pub struct Own {
    pub standing: Standing,
    /// When it last heard the root, or joined.
    pub since: u32,
}

/// The beats under way, one at most on each leg.
#[derive(Clone, Copy, Debug, PartialEq, Eq)]
pub struct Legs {
    /// Leg 1: out from the root.
    pub out: Option<Beat>,
    /// Leg 2: the reply.
    pub reply: Option<Beat>,
    /// Leg 3: the joining beats.
    pub entry: Option<Beat>,
}

/// A party: the root's note of it, itself, and what is under way between the two.
#[derive(Clone, Copy, Debug, PartialEq, Eq)]
pub struct Party {
    pub note: Note,
    pub own: Own,
    pub legs: Legs,
}
