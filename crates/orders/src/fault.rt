// What can be wrong with a record of the file.
ghost use Rattle.std.specs.Prelude.{◌≡◌};
ghost use Rattle.orders.specs.declared.fault.ReadCause.TheVariants.{Unknown, Append};
ghost use Rattle.orders.specs.Faults.{fault_number};

use protocol::kind::UnknownKind;
use slots::refusal::Refusal;

/// Why a record of the file is not taken.
#[derive(Clone, Copy, Debug, PartialEq, Eq)]
pub enum ReadCause {
    /// Bytes are missing, or they do not begin with the mark.
    NotWhole,
    /// The group kind, the pace or the order kind is no known value.
    Unknown,
    /// The list refused the order.
    Append(Refusal),
}

impl From<UnknownKind> for ReadCause {
    ghost from_gives = { λ _ cause. cause ≡ Unknown };

    fn from(_: UnknownKind) -> ReadCause {
        ReadCause::Unknown
    }
}

impl From<Refusal> for ReadCause {
    ghost from_gives = { λ refusal cause. cause ≡ Append refusal };

    fn from(refusal: Refusal) -> ReadCause {
        ReadCause::Append(refusal)
    }
}

/// The first record that is not taken.
#[derive(Clone, Copy, Debug, PartialEq, Eq)]
pub struct ReadFault {
    /// Where the record begins, in bytes from the start of the file.
    pub byte: usize,
    pub cause: ReadCause,
}

impl ReadFault {
    /// The number of the question that was answered no.
    pub fn number(self) -> u8
        ensures { result ≡ fault_number self }
    {
        match self.cause {
            ReadCause::NotWhole => 15,
            ReadCause::Unknown => 16,
            ReadCause::Append(refusal) => refusal.number(),
        }
    }
}
