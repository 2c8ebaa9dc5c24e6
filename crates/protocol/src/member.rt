// A party of a plan.
ghost use Rattle.std.specs.Prelude.{◌≤◌};

/// A party that a plan has, by its number from 1; only `Plan::member` makes one.
#[derive(Clone, Copy, Debug, PartialEq, Eq)]
pub struct Member {
    pub number: u8,
    ghost some: { 1 ≤ number },
    ghost few: { number ≤ 32 },
}

impl Member {
    ghost use Rattle.std.specs.Prelude.{◌≡◌, ◌-◌, ◌<◌};

    /// Its place in a table, from 0.
    pub fn index(self) -> usize
        ensures index { result ≡ self.number - 1 }
        ensures within { result < 32 }
    {
        self.number as usize - 1
    }
}
