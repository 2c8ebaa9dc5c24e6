// The pace in two phases.
ghost use Rattle.std.specs.Prelude.{◌≡◌};
ghost use Rattle.pace.specs.Meaning.{meaning_between};
ghost use Rattle.pace.specs.TwoPhase.{phases};
ghost use Rattle.pace.specs.laws.TwoPhase.{two_phase_lawful};

use crate::limits::Limits;
use crate::meaning::Pace;

// How many waits there are.
const ROUNDS: u32 = 64;

/// Waits tmax once, and then tmin 63 times.
#[derive(Clone, Copy, Debug, PartialEq, Eq)]
pub struct TwoPhase {
    limits: Limits,
}

impl TwoPhase {
    /// The pace in two phases between these limits.
    pub fn new(limits: Limits) -> TwoPhase
        ensures { result.limits ≡ limits }
    {
        TwoPhase { limits }
    }
}

impl Pace for TwoPhase {
    ghost means = { λ s. meaning_between s.limits (phases 63 s.limits.tmin s.limits.tmax) };

    ghost lawful = { λ s. two_phase_lawful s.limits };

    fn limits(&self) -> Limits {
        self.limits
    }

    fn rounds(&self) -> u32 {
        ROUNDS
    }

    fn wait(&self, k: u32) -> Option<u32> {
        match k {
            0 => Some(self.limits.tmax()),
            1..ROUNDS => Some(self.limits.tmin()),
            _ => None,
        }
    }
}
