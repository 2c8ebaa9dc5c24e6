// What every pace tells.
ghost use Rattle.std.specs.Prelude.{◌≡◌, length};
ghost use Rattle.std.specs.List.{slice_get};
ghost use Rattle.pace.specs.Meaning.{Meaning, Lawful};

use crate::limits::Limits;

/// How long the root waits in a round, by how many rounds in a row it has missed a party.
///
/// What a pace means are two limits and its waits, listed; `lawful` shows that these number from
/// 1 to 64, the first of them being tmax, and lie within the limits.
pub trait Pace {
    ghost means: { Self → Meaning };

    /// The limits that every wait lies within.
    fn limits(&self) -> Limits
        ensures tmin { result.tmin ≡ (means self.now).tmin }
        ensures tmax { result.tmax ≡ (means self.now).tmax };

    /// How many waits there are: at least 1, at most 64.
    fn rounds(&self) -> u32
        ensures { result ≡ length (means self.now).waits };

    /// The wait at place `k`, counted from 0, in ticks; none behind the last.
    fn wait(&self, k: u32) -> Option<u32>
        ensures { result ≡ slice_get (means self.now).waits k };

    ghost lawful: { (s : Self) → Lawful (means s) };
}
