// The pace by halving.
ghost use Rattle.std.specs.Prelude.{◌≡◌, ◌-◌, length};
ghost use Rattle.pace.specs.Meaning.{meaning_between};
ghost use Rattle.pace.specs.Halving.{halving, Largest, LengthsApart};
ghost use Rattle.pace.specs.laws.Halving.{halving_lawful};

use crate::limits::Limits;
use crate::meaning::Pace;

/// Begins at tmax and halves from wait to wait, rounded down, for as long as none is below tmin.
#[derive(Clone, Copy, Debug, PartialEq, Eq)]
pub struct Halving {
    limits: Limits,
}

impl Halving {
    /// The pace by halving between these limits.
    pub fn new(limits: Limits) -> Halving
        ensures { result.limits ≡ limits }
    {
        Halving { limits }
    }
}

impl Pace for Halving {
    ghost means = { λ s. meaning_between s.limits (halving s.limits.tmin s.limits.tmax) };

    ghost lawful = { λ s. halving_lawful s.limits };

    fn limits(&self) -> Limits {
        self.limits
    }

    // Halved d times, tmax is as long in bits as tmin: one comparison tells whether it is a wait.
    fn rounds(&self) -> u32
        ensures count { result ≡ length (halving self.now.limits.tmin self.now.limits.tmax) }
        ensures largest { Largest self.now.limits.tmin self.now.limits.tmax (result - 1) }
        ensures apart { LengthsApart self.now.limits.tmin self.now.limits.tmax (result - 1) }
    {
        let low = self.limits.tmin();
        let high = self.limits.tmax();
        let d = low.leading_zeros() - high.leading_zeros();
        if low <= high >> d { d + 1 } else { d }
    }

    fn wait(&self, k: u32) -> Option<u32> {
        (k < self.rounds()).then(|| self.limits.tmax() >> k)
    }
}
