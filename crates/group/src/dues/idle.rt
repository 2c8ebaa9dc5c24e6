// Idle rounds: each ends with nobody on the roll, and nothing is due of a party in it.
ghost use Rattle.std.specs.Prelude.{◌≡◌, ◌+◌, ◌*◌, ◌<◌, ◌≤◌, take};
ghost use Rattle.std.specs.List.{list_any};
ghost use Rattle.protocol.specs.Party.{on_roll};
ghost use Rattle.protocol.specs.calls.Tick.{round_ends};
ghost use Rattle.protocol.specs.Idle.{Idle};
ghost use Rattle.group.specs.Sane.{Sane};
ghost use Rattle.protocol.specs.Rules.{clock_limit};

use crate::dues::timer::Timer;
use pace::Pace;
use protocol::party::{Party, Roll};
use protocol::plan::Plan;
use protocol::table::{CLOCK_LIMIT, Root, Table};

fn is_round_over(table: &Table) -> bool
    requires { Sane table.now }
    ensures { result ≡ round_ends table.now }
{
    table.root == Root::Running && table.clock == table.start + table.length
}

fn is_on_roll(party: &Party) -> bool
    ensures { result ≡ on_roll party.now.note.roll }
{
    party.note.roll == Roll::On
}

fn is_anybody_on_roll(plan: &Plan, table: &Table) -> bool
    ensures { result ≡ list_any (λ p. on_roll p.note.roll) (take plan.now.n table.now.parties) }
{
    table.members(plan).iter().any(|party| is_on_roll(party))
}

// How many idle rounds follow the end of one at the clock, up to `until`; none where none ends.
pub(crate) fn idle_rounds<P: Pace>(pace: &P, plan: &Plan, table: &Table, until: u32) -> u32
    requires sane { Sane table.now }
    ensures until { 0 < result → table.now.clock + result * (P.means pace.now).tmax ≤ until }
    ensures limit { 0 < result → table.now.clock + result * (P.means pace.now).tmax ≤ clock_limit }
    ensures idle { 0 < result → Idle (P.means pace.now) plan.now table.now
        (table.now.clock + result * (P.means pace.now).tmax) }
{
    if !is_round_over(table) || is_anybody_on_roll(plan, table) {
        return 0;
    }
    let parties = Timer::at(pace, plan, table).parties_due(table.members(plan));
    let end = parties.min(until).min(CLOCK_LIMIT);
    whole_rounds(table.clock, end, pace.limits().tmax())
}

// As many rounds of tmax ticks as there is time for.
fn whole_rounds(clock: u32, end: u32, tmax: u32) -> u32
    requires some { 0 < tmax }
    ensures fits { 0 < result → clock + result * tmax ≤ end }
    ensures most { end < clock + (result + 1) * tmax }
{
    end.saturating_sub(clock) / tmax
}
