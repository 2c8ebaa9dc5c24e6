// A pair of limits, in ticks.
ghost use Rattle.std.specs.Prelude.{◌≡◌, ◌≤◌};
ghost use Rattle.pace.specs.Answers.{Answered, NothingToKeep};
ghost use Rattle.pace.specs.Limits.{limits_no};

use crate::refusal::Refusal;

/// The shortest and the longest wait, in ticks: 1 <= tmin <= tmax <= 1,000,000.
#[derive(Clone, Copy, Debug, PartialEq, Eq)]
pub struct Limits {
    tmin: u32,
    tmax: u32,
    ghost low: { 1 ≤ tmin },
    ghost ordered: { tmin ≤ tmax },
    ghost high: { tmax ≤ 1000000 },
}

impl Limits {
    /// A pair of limits. `BadLimits` where it breaks its bounds.
    pub fn new(tmin: u32, tmax: u32) -> Result<Limits, Refusal>
        ensures { Answered (limits_no tmin tmax) result
            (λ limits. (limits.tmin ≡ tmin) × (limits.tmax ≡ tmax)) NothingToKeep }
    {
        if tmin >= 1 && tmin <= tmax && tmax <= 1_000_000 {
            Ok(Limits { tmin, tmax })
        } else {
            Err(Refusal::BadLimits)
        }
    }

    /// The shortest wait, in ticks.
    pub fn tmin(&self) -> u32
        ensures { result ≡ self.now.tmin }
    {
        self.tmin
    }

    /// The longest wait, in ticks.
    pub fn tmax(&self) -> u32
        ensures { result ≡ self.now.tmax }
    {
        self.tmax
    }
}
