// The calls of a group, a file each: what is asked, then what is done. A refusal changes nothing.
ghost use Rattle.group.specs.Does.{Does};

mod advance;
mod crash;
mod deliver;
mod join;
mod leave;
mod lose;
mod tick;

pub(crate) use self::tick::{ask_tick, do_tick};
use crate::group::Group;
use pace::Pace;
use protocol::call::Call;
use protocol::happening::Happening;
use protocol::refusal::Refusal;
use slots::SlotList;

impl<P: Pace> Group<P> {
    /// Any call but advancing, by its value.
    pub fn perform(&mut self, log: &mut SlotList<'_, Happening>, call: Call) -> Result<(), Refusal>
        ensures { Does call self.old self.new log.old log.new result }
    {
        match call {
            Call::Tick => self.tick(log),
            Call::Deliver(party, leg) => self.deliver(log, party, leg),
            Call::Lose(party, leg) => self.lose(log, party, leg),
            Call::Crash(party) => self.crash(log, party),
            Call::Join(party) => self.join(log, party),
            Call::Leave(party) => self.leave(log, party),
        }
    }
}
