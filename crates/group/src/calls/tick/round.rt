// The end of a round: the root stops, or starts the next one.
ghost use Rattle.std.specs.Prelude.{◌≡◌, ◌≤◌, take};
ghost use Rattle.std.specs.List.{list_any, fold};
ghost use Rattle.protocol.specs.calls.Tick.{missed_all, shorter, after_verdict, after_round};
ghost use Rattle.protocol.specs.Views.{Ready};
ghost use Rattle.group.specs.Does.{rules_by};
ghost use Rattle.group.specs.Sane.{Sane};
ghost use Rattle.group.specs.Views.{Acted};
ghost use Rattle.protocol.specs.Rules.{clock_limit};

use crate::calls::tick::passes::{count_misses, send_all};
use crate::dues::trip_of;
use crate::logging::tell;
use pace::Pace;
use protocol::happening::{Happening, HappeningKind};
use protocol::party::{Party, Roll};
use protocol::plan::Plan;
use protocol::table::{Root, RootEnding, Table};
use slots::SlotList;

// The root acts, where it runs and its round ends.
pub(crate) fn end_round<P: Pace>(
    pace: &P,
    plan: &Plan,
    table: &mut Table,
    log: &mut SlotList<'_, Happening>,
)
    requires sane { Sane table.old }
    requires ready { Ready log.old table.old.clock plan.now.n }
    ensures { Acted plan.now.n (after_round (rules_by (P.means pace.now) plan.now log.old))
        table.old table.new log.old log.new }
{
    if table.root == Root::Running && table.clock == table.start + table.length {
        count_misses(plan, table);
        settle(pace, plan, table, log);
    }
}

// The root stops, or starts the next round and sends.
fn settle<P: Pace>(pace: &P, plan: &Plan, table: &mut Table, log: &mut SlotList<'_, Happening>)
    requires early { table.old.clock ≤ clock_limit }
    requires ready { Ready log.old table.old.clock plan.now.n }
    ensures { Acted plan.now.n (after_verdict (rules_by (P.means pace.now) plan.now log.old))
        table.old table.new log.old log.new }
{
    let clock = table.clock;
    if has_any_missed_all(plan, table, pace.rounds()) {
        table.root = Root::Down(RootEnding::Stopped, clock);
        tell(log, clock, 0, HappeningKind::Stopped);
    } else {
        table.length = next_length(pace, plan, table);
        table.start = clock;
        send_all(plan, table, log, clock + trip_of(pace));
    }
}

// Has a party on the roll missed every round of the pace?
fn has_any_missed_all(plan: &Plan, table: &Table, rounds: u32) -> bool
    ensures { result ≡ list_any (missed_all rounds) (take plan.now.n table.now.parties) }
{
    table
        .members(plan)
        .iter()
        .any(|party| party.has_missed_all(rounds))
}

// Each expected party has a wait, by its misses: the least of them, and tmax where there is none.
fn next_length<P: Pace>(pace: &P, plan: &Plan, table: &Table) -> u32
    ensures { result ≡ fold (shorter (P.means pace.now).waits)
        (P.means pace.now).tmax (take plan.now.n table.now.parties) }
{
    let tmax = pace.limits().tmax();
    table
        .members(plan)
        .iter()
        .fold(tmax, |best, party| shorter_wait(pace, party, best))
}

fn shorter_wait<P: Pace>(pace: &P, party: &Party, best: u32) -> u32
    ensures { result ≡ shorter (P.means pace.now).waits best party.now }
{
    match party.note.roll {
        Roll::On => pace
            .wait(party.note.misses)
            .map_or(best, |wait| best.min(wait)),
        Roll::Off | Roll::Struck => best,
    }
}
