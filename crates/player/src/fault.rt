// Why a file is not played, or its run not exported.
ghost use Rattle.std.specs.Prelude.{◌≡◌};
ghost use Rattle.player.specs.declared.fault.FileFault.TheVariants.{Read, Pace, Plan, Export};
ghost use Rattle.player.specs.Faults.{file_byte, file_number};

use crate::notices::RefusedFile;
use graphml::answer::Refusal as ExportRefusal;
use orders::fault::ReadFault;
use pace::refusal::Refusal as PaceRefusal;
use protocol::plan::BadPartyCount;

/// What of a file was refused. The library's own refusals come inside it unchanged.
#[derive(Clone, Copy, Debug, PartialEq, Eq)]
pub enum FileFault {
    /// A record of the file.
    Read(ReadFault),
    /// The limits, or the cap.
    Pace(PaceRefusal),
    /// The number of parties.
    Plan(BadPartyCount),
    /// The output.
    Export(ExportRefusal),
}

impl From<ReadFault> for FileFault {
    ghost from_gives = { λ x f. f ≡ Read x };

    fn from(fault: ReadFault) -> FileFault {
        FileFault::Read(fault)
    }
}

impl From<PaceRefusal> for FileFault {
    ghost from_gives = { λ x f. f ≡ Pace x };

    fn from(refusal: PaceRefusal) -> FileFault {
        FileFault::Pace(refusal)
    }
}

impl From<BadPartyCount> for FileFault {
    ghost from_gives = { λ x f. f ≡ Plan x };

    fn from(refusal: BadPartyCount) -> FileFault {
        FileFault::Plan(refusal)
    }
}

impl From<ExportRefusal> for FileFault {
    ghost from_gives = { λ x f. f ≡ Export x };

    fn from(refusal: ExportRefusal) -> FileFault {
        FileFault::Export(refusal)
    }
}

impl FileFault {
    // Where the record begins; what is no record is told at the file's first byte.
    pub(crate) fn byte(self) -> usize
        ensures { result ≡ file_byte self }
    {
        match self {
            FileFault::Read(fault) => fault.byte,
            _ => 0,
        }
    }

    // The number of the question that was answered no.
    pub(crate) fn number(self) -> u8
        ensures { result ≡ file_number self }
    {
        match self {
            FileFault::Read(fault) => fault.number(),
            FileFault::Pace(refusal) => refusal.number(),
            FileFault::Plan(refusal) => refusal.number(),
            FileFault::Export(refusal) => refusal.number(),
        }
    }
}

impl From<FileFault> for RefusedFile {
    ghost from_gives = { λ f x. (x.byte ≡ file_byte f) × (x.number ≡ file_number f) };

    fn from(fault: FileFault) -> RefusedFile {
        RefusedFile {
            byte: fault.byte(),
            number: fault.number(),
        }
    }
}
