// Why limits, a cap or waits are refused.
ghost use Rattle.std.specs.Prelude.{◌≡◌};
ghost use Rattle.pace.specs.Answers.{pace_refusal_number};

/// The question on limits, a cap or waits that is answered no.
#[derive(Clone, Copy, Debug, PartialEq, Eq)]
pub enum Refusal {
    /// The pair of limits breaks its bounds.
    BadLimits = 1,
    /// The number of waits, or the cap, is not 1 to 64.
    BadCount = 2,
    /// The first wait is not tmax.
    BadFirst = 3,
    /// A wait lies outside the limits.
    BadWait = 4,
}

impl Refusal {
    /// The number of the question, 1 to 4.
    pub fn number(self) -> u8
        ensures { result ≡ pace_refusal_number self }
    {
        self as u8
    }
}
