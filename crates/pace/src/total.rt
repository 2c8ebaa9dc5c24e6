// The sum of the waits of any pace.
ghost use Rattle.std.specs.Prelude.{◌≡◌, ◌≤◌, sum};

use crate::meaning::Pace;

/// The waits of a pace together, in ticks.
pub fn total<P: Pace>(p: &P) -> u32
    ensures sum { result ≡ sum (P.means p.now).waits }
    ensures small { result ≤ 64000000 }
{
    // the compiler does not see through `filter_map` over a cap, which takes half as long again
    (0..p.rounds()).map(|k| p.wait(k).unwrap_or(0)).sum()
}
