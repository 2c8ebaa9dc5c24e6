// A pace whose waits are listed.
ghost use Rattle.std.specs.Prelude.{◌≡◌, [], ◌∷◌};
ghost use Rattle.pace.specs.Answers.{Answered};
ghost use Rattle.pace.specs.Meaning.{meaning_between};
ghost use Rattle.pace.specs.Listed.{waits_no, all_within};
ghost use Rattle.pace.specs.laws.Listed.{allowed_lawful};

use crate::limits::Limits;
use crate::meaning::Pace;
use crate::refusal::Refusal;
use arrayvec::ArrayVec;

// How many waits a pace has at most.
const MOST: usize = 64;

/// Waits that the caller lists, 1 to 64, the first of them tmax and each within the limits.
#[derive(Drop)]
pub struct Listed {
    limits: Limits,
    waits: ArrayVec<u32, MOST>,
    ghost allowed: { waits_no limits.tmin limits.tmax waits.items ≡ 0 },
}

impl Listed {
    /// The list of the one wait tmax.
    pub fn new(limits: Limits) -> Listed
        ensures limits { result.limits ≡ limits }
        ensures waits { result.waits.items ≡ limits.tmax ∷ [] }
    {
        let mut waits = ArrayVec::new();
        waits.push(limits.tmax());
        Listed { limits, waits }
    }

    /// Changes the waits, which are given in ticks. Refused are, asked in this order, a number of
    /// them that is not 1 to 64 (`BadCount`), a first one that is not tmax (`BadFirst`), and one
    /// outside the limits (`BadWait`).
    pub fn set(&mut self, waits: &[u32]) -> Result<(), Refusal>
        ensures answer { Answered (waits_no self.old.limits.tmin self.old.limits.tmax waits.now)
            result (λ _. self.new.waits.items ≡ waits.now) (self.new ≡ self.old) }
        ensures limits { self.new.limits ≡ self.old.limits }
    {
        let mut listed = ArrayVec::new();
        if waits.is_empty() || listed.try_extend_from_slice(waits).is_err() {
            return Err(Refusal::BadCount);
        }
        if waits[0] != self.limits.tmax() {
            return Err(Refusal::BadFirst);
        }
        if !lie_within(waits, self.limits) {
            return Err(Refusal::BadWait);
        }
        self.waits = listed;
        Ok(())
    }
}

impl Pace for Listed {
    ghost means = { λ s. meaning_between s.limits s.waits.items };

    ghost lawful = { λ s. allowed_lawful s.limits s.waits.items s.allowed };

    fn limits(&self) -> Limits {
        self.limits
    }

    fn rounds(&self) -> u32 {
        self.waits.len() as u32
    }

    fn wait(&self, k: u32) -> Option<u32> {
        self.waits.as_slice().get(k as usize).copied()
    }
}

// Whether every wait lies within the limits.
fn lie_within(waits: &[u32], limits: Limits) -> bool
    ensures { result ≡ all_within limits.tmin limits.tmax waits.now }
{
    waits
        .iter()
        .all(|w| limits.tmin() <= *w && *w <= limits.tmax())
}
