// The start record of the file: which group is played, and at which pace.
ghost use Rattle.std.specs.Prelude.{◌≡◌, ℕ, List, ◌++◌, length, Ok};
ghost use Rattle.std.specs.Option.{ok_or};
ghost use Rattle.orders.specs.Kinds.{pace_kind, pace_number};
ghost use Rattle.orders.specs.Reading.{start_at};
ghost use Rattle.orders.specs.Writing.{start_bytes};

use protocol::kind::{GroupKind, UnknownKind};

// The two bytes before the start record.
pub(crate) const START_MARK: [u8; 2] = [0x48, 0x47];

/// How many bytes a start record has in the file, with its mark.
pub const START_SIZE: usize = 14;

/// Which pace a file asks for.
#[derive(Clone, Copy, Debug, PartialEq, Eq)]
pub enum PaceKind {
    Halving = 1,
    TwoPhase = 2,
}

impl TryFrom<u8> for PaceKind {
    type Error = UnknownKind;

    ghost try_from_gives = { λ number r. r ≡ ok_or (pace_kind number) (record { 0 = number }) };

    fn try_from(number: u8) -> Result<PaceKind, UnknownKind> {
        match number {
            1 => Ok(PaceKind::Halving),
            2 => Ok(PaceKind::TwoPhase),
            _ => Err(UnknownKind(number)),
        }
    }
}

impl From<PaceKind> for u8 {
    ghost from_gives = { λ kind number. number ≡ pace_number kind };

    fn from(kind: PaceKind) -> u8 {
        kind as u8
    }
}

/// What a file asks for. Whether there can be such limits, cap and plan is not asked in reading.
#[derive(Clone, Copy, Debug, PartialEq, Eq)]
pub struct Start {
    pub kind: GroupKind,
    /// How many parties there are beside the root.
    pub parties: u8,
    /// The shortest wait, in ticks.
    pub tmin: u32,
    /// The longest wait, in ticks.
    pub tmax: u32,
    pub pace: PaceKind,
    /// How many of the pace's waits count at most.
    pub cap: u8,
}

impl Start {
    /// The start as a record of the file.
    pub fn to_bytes(self) -> [u8; START_SIZE]
        ensures written { result ≡ start_bytes self }
        ensures reads_back { (before after : List ℕ)
            → start_at (before ++ result ++ after) (length before) ≡ Ok self }
    {
        let [a, b, c, d] = self.tmin.to_be_bytes();
        let [e, f, g, h] = self.tmax.to_be_bytes();
        [
            START_MARK[0],
            START_MARK[1],
            self.kind.into(),
            self.parties,
            a,
            b,
            c,
            d,
            e,
            f,
            g,
            h,
            self.pace.into(),
            self.cap,
        ]
    }
}
