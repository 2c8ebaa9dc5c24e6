// What the log keeps of each step of a run.
ghost use Rattle.std.specs.Prelude.{◌≡◌};
ghost use Rattle.protocol.specs.Words.{kind_number, word};

use slots::timed::Timed;

/// The ten kinds of happening, by their numbers.
#[derive(Clone, Copy, Debug, Default, PartialEq, Eq)]
pub enum HappeningKind {
    #[default]
    Sent = 1,
    Arrived = 2,
    Lost = 3,
    Enrolled = 4,
    Struck = 5,
    Crashed = 6,
    Stopped = 7,
    Left = 8,
    Joining = 9,
    Leaving = 10,
}

// Their words, in the order of their numbers: a table, which the export reads.
const WORDS: [&str; 10] = [
    "sent", "arrived", "lost", "enrolled", "struck", "crashed", "stopped", "left", "joining",
    "leaving",
];

impl From<HappeningKind> for u8 {
    ghost from_gives = { λ kind number. number ≡ kind_number kind };

    fn from(kind: HappeningKind) -> u8 {
        kind as u8
    }
}

impl HappeningKind {
    /// The word that stands for it in the exported file.
    pub fn word(self) -> &'static str
        ensures { result.now ≡ word self }
    {
        WORDS[self as usize - 1]
    }
}

/// One step that was logged.
#[derive(Clone, Copy, Debug, Default, PartialEq, Eq)]
pub struct Happening {
    /// The clock when it happened.
    pub tick: u32,
    /// Whom it is about, 0 for the root: of an arrival the receiver, of a loss the sender.
    pub owner: u8,
    pub kind: HappeningKind,
    /// A place in the log: of an arrival or a loss the beat's sending, otherwise the record's own.
    pub link: usize,
}

impl Timed for Happening {
    ghost time = { λ h. h.tick };

    fn tick(&self) -> u32 {
        self.tick
    }
}
