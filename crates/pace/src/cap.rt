// A pace with an upper bound on its number of waits.
ghost use Rattle.std.specs.Prelude.{◌≡◌, ◌≤◌};
ghost use Rattle.pace.specs.Answers.{Answered};
ghost use Rattle.pace.specs.Cap.{capped_meaning, count_no};
ghost use Rattle.pace.specs.laws.Cap.{capped_lawful};

use crate::limits::Limits;
use crate::meaning::Pace;
use crate::refusal::Refusal;

/// The first `m` waits of a pace, or all of them where it has fewer. `m` is the cap, 1 to 64.
#[derive(Drop)]
pub struct Cap<P: Pace> {
    pace: P,
    m: u32,
    ghost some: { 1 ≤ m },
    ghost few: { m ≤ 64 },
}

impl<P: Pace> Cap<P> {
    /// Puts a cap of 64 on a pace, which cuts nothing.
    pub fn new(pace: P) -> Cap<P>
        ensures inner { result.pace ≡ pace }
        ensures most { result.m ≡ 64 }
    {
        Cap { pace, m: 64 }
    }

    /// Changes the cap. `BadCount` unless `m` is 1 to 64.
    pub fn set(&mut self, m: u32) -> Result<(), Refusal>
        ensures answer { Answered (count_no m) result (λ _. self.new.m ≡ m) (self.new ≡ self.old) }
        ensures below { self.new.pace ≡ self.old.pace }
    {
        if !(1..=64).contains(&m) {
            return Err(Refusal::BadCount);
        }
        self.m = m;
        Ok(())
    }
}

impl<P: Pace> Pace for Cap<P> {
    ghost means = { λ s. capped_meaning s.m (P.Pace.means s.pace) };

    ghost lawful = { λ s. capped_lawful s.m (P.Pace.means s.pace) s.some (P.Pace.lawful s.pace) };

    fn limits(&self) -> Limits {
        self.pace.limits()
    }

    fn rounds(&self) -> u32 {
        self.m.min(self.pace.rounds())
    }

    fn wait(&self, k: u32) -> Option<u32> {
        if k < self.m { self.pace.wait(k) } else { None }
    }
}
