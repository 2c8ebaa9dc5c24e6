// The paces that a file may ask for, as one type: a program that plays files is written once.
ghost use Rattle.std.specs.Prelude.{◌≡◌};
ghost use Rattle.pace.specs.Answers.{Answered, NothingToKeep};
ghost use Rattle.pace.specs.Limits.{limits_no};
ghost use Rattle.player.specs.FilePace.{asked_pace, meaning_of};
ghost use Rattle.player.specs.laws.FilePace.{file_pace_lawful};

use orders::start::{PaceKind, Start};
use pace::Pace;
use pace::halving::Halving;
use pace::limits::Limits;
use pace::refusal::Refusal;
use pace::two_phase::TwoPhase;

/// The pace of a file, without the file's cap.
#[derive(Drop)]
pub enum FilePace {
    Halving(Halving),
    TwoPhase(TwoPhase),
}

impl FilePace {
    /// The pace that a file's start record asks for. Of its questions only that on the limits is
    /// put; the cap is set, and asked about, where the group is opened.
    pub fn new(start: Start) -> Result<FilePace, Refusal>
        ensures { Answered (limits_no start.tmin start.tmax) result
            (λ pace. meaning_of pace ≡ asked_pace start) NothingToKeep }
    {
        let limits = Limits::new(start.tmin, start.tmax)?;
        Ok(match start.pace {
            PaceKind::Halving => FilePace::Halving(Halving::new(limits)),
            PaceKind::TwoPhase => FilePace::TwoPhase(TwoPhase::new(limits)),
        })
    }
}

impl Pace for FilePace {
    ghost means = { meaning_of };

    ghost lawful = { file_pace_lawful };

    fn limits(&self) -> Limits {
        match self {
            FilePace::Halving(pace) => pace.limits(),
            FilePace::TwoPhase(pace) => pace.limits(),
        }
    }

    fn rounds(&self) -> u32 {
        match self {
            FilePace::Halving(pace) => pace.rounds(),
            FilePace::TwoPhase(pace) => pace.rounds(),
        }
    }

    fn wait(&self, k: u32) -> Option<u32> {
        match self {
            FilePace::Halving(pace) => pace.wait(k),
            FilePace::TwoPhase(pace) => pace.wait(k),
        }
    }
}
