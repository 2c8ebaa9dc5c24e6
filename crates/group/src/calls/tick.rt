// Tick: the present tick is closed; the root acts first, then each party, then the clock.
ghost use Rattle.std.specs.Prelude.{◌≡◌, ◌*◌, ◌<◌, OnOk, take};
ghost use Rattle.std.specs.List.{list_any};
ghost use Rattle.slots.specs.Slots.{capacity, Extends};
ghost use Rattle.protocol.specs.Answers.{number_told};
ghost use Rattle.protocol.specs.calls.Tick.{after_tick, due, tick_number};
ghost use Rattle.protocol.specs.Questions.{log_asks};
ghost use Rattle.protocol.specs.Views.{state_of, Ready};
ghost use Rattle.protocol.specs.declared.call.Call.TheVariants.{Tick};
ghost use Rattle.group.specs.Does.{rules_by, Does};
ghost use Rattle.group.specs.Sane.{Sane};
ghost use Rattle.protocol.specs.Rules.{clock_limit};

mod passes;
mod round;

use self::passes::time_all;
use self::round::end_round;
use crate::dues::{Timer, next_due};
use crate::group::Group;
use crate::questions::ask_log;
use pace::Pace;
use protocol::happening::Happening;
use protocol::plan::Plan;
use protocol::refusal::Refusal;
use protocol::table::{CLOCK_LIMIT, Table};
use slots::SlotList;

impl<P: Pace> Group<P> {
    /// Closes the present tick. One at which nothing is due only counts the clock.
    pub fn tick(&mut self, log: &mut SlotList<'_, Happening>) -> Result<(), Refusal>
        ensures { Does Tick self.old self.new log.old log.new result }
    {
        if self.table.clock < self.quiet_until {
            ask_quiet_tick(&self.plan, &self.table, log)?;
            self.table.clock += 1;
        } else {
            ask_tick(&self.plan, &self.table, log)?;
            do_tick(&self.pace, &self.plan, &mut self.table, log);
            self.quiet_until = next_due(&self.pace, &self.plan, &self.table);
        }
        Ok(())
    }
}

pub(crate) fn ask_tick(
    plan: &Plan,
    table: &Table,
    log: &SlotList<'_, Happening>,
) -> Result<(), Refusal>
    ensures number { number_told result
        ≡ tick_number plan.now (capacity log.now) (state_of table.now log.now) }
    ensures ready { OnOk result (Ready log.now table.now.clock (2 * plan.now.n)) }
{
    if table.clock >= CLOCK_LIMIT {
        return Err(Refusal::ClockAtEnd);
    }
    if is_any_due(plan, table) {
        return Err(Refusal::BeatDue);
    }
    ask_quiet_tick(plan, table, log)
}

// Where nothing is due, only the log may refuse: each party may get a beat and tell of its timer.
fn ask_quiet_tick(plan: &Plan, table: &Table, log: &SlotList<'_, Happening>) -> Result<(), Refusal>
    ensures number { number_told result
        ≡ log_asks (2 * plan.now.n) (capacity log.now) (state_of table.now log.now) }
    ensures ready { OnOk result (Ready log.now table.now.clock (2 * plan.now.n)) }
{
    ask_log(table, log, 2 * plan.parties() as usize)
}

fn is_any_due(plan: &Plan, table: &Table) -> bool
    ensures { result ≡ list_any (due table.now.clock) (take plan.now.n table.now.parties) }
{
    table
        .members(plan)
        .iter()
        .any(|party| party.is_due(table.clock))
}

#[tactic(auto, using(slots::proofs::Growing::extends_trans))]
pub(crate) fn do_tick<P: Pace>(
    pace: &P,
    plan: &Plan,
    table: &mut Table,
    log: &mut SlotList<'_, Happening>,
)
    requires early { table.old.clock < clock_limit }
    requires sane { Sane table.old }
    requires ready { Ready log.old table.old.clock (2 * plan.now.n) }
    ensures extends { Extends log.old log.new }
    ensures after { state_of table.new log.new
        ≡ after_tick (rules_by (P.means pace.now) plan.now log.old)
        (state_of table.old log.old) }
{
    end_round(pace, plan, table, log);
    let timer = Timer::at(pace, plan, table);
    time_all(plan, table, log, timer);
    table.clock += 1;
    table.logged = log.len();
}
