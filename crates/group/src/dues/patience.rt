// How long a beat may be under way, and how long a party waits for the root.
ghost use Rattle.std.specs.Prelude.{◌≡◌, ◌≤◌, take};
ghost use Rattle.std.specs.List.{list_any};
ghost use Rattle.protocol.specs.Rules.{patience, trip};
ghost use Rattle.group.specs.Patience.{silent_for, Suffices};

use pace::Pace;
use pace::total::total;
use protocol::kind::GroupKind;
use protocol::party::Party;
use protocol::plan::Plan;
use protocol::table::Table;

// The ticks in which a beat arrives or is lost.
pub(crate) fn trip_of<P: Pace>(pace: &P) -> u32
    ensures trip { result ≡ trip (P.means pace.now) }
    ensures brief { result ≤ 1000000 }
{
    pace.limits().tmin()
}

// D: the ticks of silence after which a party ends.
pub(crate) fn patience_of<P: Pace>(pace: &P, kind: GroupKind) -> u32
    ensures { result ≡ patience (P.means pace.now) kind }
{
    let closed = pace.limits().tmax() + total(pace);
    match kind {
        GroupKind::Closed => closed,
        GroupKind::Expanding | GroupKind::Dynamic => closed + trip_of(pace),
    }
}

// D, or 2 tmax where nobody is silent for that long. D is never less, so that the waits are summed
// only where a party may end.
pub(crate) fn patience_for<P: Pace>(pace: &P, plan: &Plan, table: &Table) -> u32
    ensures { Suffices (P.means pace.now) plan.now table.now result }
{
    let least = 2 * pace.limits().tmax();
    if is_any_silent(plan, table, least) {
        patience_of(pace, plan.kind())
    } else {
        least
    }
}

fn is_any_silent(plan: &Plan, table: &Table, ticks: u32) -> bool
    ensures { result
        ≡ list_any (silent_for ticks table.now.clock) (take plan.now.n table.now.parties) }
{
    table
        .members(plan)
        .iter()
        .any(|party| is_silent(party, table.clock, ticks))
}

fn is_silent(party: &Party, clock: u32, ticks: u32) -> bool
    ensures { result ≡ silent_for ticks clock party.now }
{
    party.is_live() && clock.saturating_sub(party.own.since) >= ticks
}
