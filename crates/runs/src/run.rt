// A group with its log. Every value of the type is a run by the rules, and keeps their promise.
ghost use Rattle.std.specs.Prelude.{◌≡◌, ◌-◌, replicate};
ghost use Rattle.protocol.specs.Answers.{number_told};
ghost use Rattle.protocol.specs.declared.call.Call.TheVariants.{Tick};
ghost use Rattle.protocol.specs.State.{opening};
ghost use Rattle.group.specs.Advance.{WentOn};
ghost use Rattle.group.specs.Does.{rules, state, Does};
ghost use Rattle.runs.specs.Runs.{IsRun, DoesAll, Makes};

use crate::making::{make_all, tick_to};
use group::Group;
use pace::Pace;
use protocol::call::{Call, Step};
use protocol::happening::Happening;
use protocol::plan::Plan;
use protocol::refusal::Refusal;
use slots::SlotList;

/// A group and the log in the slots lent to it, after some calls from the opening on.
///
/// The fields are open, so that an export or a look borrows them one by one. Whoever changes one
/// owes the promise, which the calls here keep.
#[derive(Drop)]
pub struct Run<'a, P: Pace> {
    pub group: Group<P>,
    pub log: SlotList<'a, Happening>,
    // truncated: which steps led here is no part of the value
    ghost run: { ∥ IsRun (rules group log) (state group log) ∥₁ },
}

impl<'a, P: Pace> Run<'a, P> {
    /// A new group, its log empty; the slots are lent for as long as the run is used.
    pub fn open(pace: P, plan: Plan, slots: &'a mut [Happening]) -> Run<'a, P>
        ensures pace { result.group.pace ≡ pace }
        ensures plan { result.group.plan ≡ plan }
        ensures slots { result.log.slots.now ≡ slots.old }
        ensures opened { state result.group result.log ≡ opening (rules result.group result.log) }
        ensures lent { result.log.slots.ghost_name ≡ slots.entry.ghost_name }
    {
        Run {
            group: Group::open(pace, plan),
            log: SlotList::new(slots),
        }
    }

    /// One call more; a refused one changes nothing.
    pub fn perform(&mut self, call: Call) -> Result<(), Refusal>
        ensures { Does call self.old.group self.new.group self.old.log self.new.log result }
    {
        self.group.perform(&mut self.log, call)
    }

    /// Ticks until the clock is `until`, or the next tick would be refused; as `Group::advance`, it
    /// answers a refusal of its first tick only.
    pub fn advance(&mut self, until: u32) -> Result<(), Refusal>
        ensures { WentOn until self.old.group self.new.group self.old.log self.new.log result }
    {
        self.group.advance(&mut self.log, until)
    }

    /// Ticks until the clock is `until`, or a tick is refused; those before it stand.
    pub fn tick_to(&mut self, until: u32) -> Result<(), Refusal>
        ensures { Makes (replicate (until - self.old.group.table.clock) Tick)
            self.old.group self.new.group self.old.log self.new.log (number_told result) }
    {
        tick_to(&mut self.group, &mut self.log, until)
    }

    /// Makes every call in turn, refused or not, and puts each answer beside it.
    pub fn make_all(&mut self, steps: &mut [Step])
        ensures { DoesAll self.old.group self.new.group self.old.log self.new.log
            steps.old steps.new }
    {
        make_all(&mut self.group, &mut self.log, steps);
    }

    /// Nothing to run: the contract is what every run keeps, whatever calls led to it.
    pub fn keeps_the_rules(&self)
        ensures { let r = self.now in ∥ IsRun (rules r.group r.log) (state r.group r.log) ∥₁ }
    {}
}
