// The next tick at which something is due: each tick before it only counts the clock.
ghost use Rattle.std.specs.Prelude.{◌≡◌, ℕ, ◌<◌, ◌≤◌, false};
ghost use Rattle.protocol.specs.calls.Tick.{round_ends};
ghost use Rattle.protocol.specs.Quiet.{with_clock, QuietUntil};

use crate::dues::timer::Timer;
use pace::Pace;
use protocol::plan::Plan;
use protocol::table::{CLOCK_LIMIT, Root, Table};

// The end of the round of a running root.
fn round_due(table: &Table) -> u32
    ensures { (c : ℕ) → c < result → round_ends (with_clock c table.now) ≡ false }
{
    match table.root {
        Root::Running => table.start.saturating_add(table.length),
        Root::Down(..) => u32::MAX,
    }
}

// The clock, or a later tick that is at most the clock's limit; nothing is due before it.
pub(crate) fn next_due<P: Pace>(pace: &P, plan: &Plan, table: &Table) -> u32
    ensures late { table.now.clock ≤ result }
    ensures until { QuietUntil (P.means pace.now) plan.now table.now result }
{
    let round = round_due(table);
    // the parties are asked only where the root does not act at once
    if round <= table.clock {
        return table.clock;
    }
    let parties = Timer::at(pace, plan, table).parties_due(table.members(plan));
    round.min(parties).min(CLOCK_LIMIT).max(table.clock)
}
