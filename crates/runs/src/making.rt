// Several calls of a group over its log.
ghost use Rattle.std.specs.Prelude.{◌-◌, replicate};
ghost use Rattle.protocol.specs.Answers.{number_told};
ghost use Rattle.protocol.specs.declared.call.Call.TheVariants.{Tick};
ghost use Rattle.runs.specs.Runs.{DoesAll, Makes};

use group::Group;
use pace::Pace;
use protocol::call::Step;
use protocol::happening::Happening;
use protocol::refusal::Refusal;
use slots::SlotList;

/// Makes every call in turn, refused or not, and puts each answer beside it.
pub fn make_all<P: Pace>(
    group: &mut Group<P>,
    log: &mut SlotList<'_, Happening>,
    steps: &mut [Step],
)
    ensures { DoesAll group.old group.new log.old log.new steps.old steps.new }
{
    for step in steps.iter_mut() {
        step.answer = group.perform(log, step.call);
    }
}

/// Ticks until the clock is `until`, or a tick is refused; those before it stand.
pub fn tick_to<P: Pace>(
    group: &mut Group<P>,
    log: &mut SlotList<'_, Happening>,
    until: u32,
) -> Result<(), Refusal>
    ensures { Makes (replicate (until - group.old.table.clock) Tick)
        group.old group.new log.old log.new (number_told result) }
{
    while group.clock() < until {
        group.advance(log, until)?;
    }
    Ok(())
}
