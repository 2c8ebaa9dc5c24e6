// Advance: ticks up to a tick.
ghost use Rattle.group.specs.Advance.{WentOn};

use crate::advancing::tick_until;
use crate::calls::ask_tick;
use crate::group::Group;
use pace::Pace;
use protocol::happening::Happening;
use protocol::refusal::Refusal;
use slots::SlotList;

impl<P: Pace> Group<P> {
    /// Ticks until the clock is `until`, or the next tick would be refused. It answers a refusal of
    /// its first tick only, and then has changed nothing: whoever wants to know why it stopped
    /// short calls it again. Time in which nothing is due costs nothing.
    pub fn advance(&mut self, log: &mut SlotList<'_, Happening>, until: u32) -> Result<(), Refusal>
        ensures { WentOn until self.old self.new log.old log.new result }
    {
        if self.table.clock < until {
            ask_tick(&self.plan, &self.table, log)?;
            self.quiet_until = 0;
            tick_until(&self.pace, &self.plan, &mut self.table, log, until);
        }
        Ok(())
    }
}
