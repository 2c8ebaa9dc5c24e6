// Join: an outside party asks to be taken on the roll.
ghost use Rattle.std.specs.Prelude.{◌≡◌, ◌≤◌, IfOk, OnOk};
ghost use Rattle.slots.specs.Slots.{capacity, Extends};
ghost use Rattle.protocol.specs.Answers.{number_told};
ghost use Rattle.protocol.specs.calls.Join.{after_join, join_number};
ghost use Rattle.protocol.specs.Views.{state_of, Ready};
ghost use Rattle.protocol.specs.declared.call.Call.TheVariants.{Join};
ghost use Rattle.group.specs.Does.{Does};
ghost use Rattle.protocol.specs.Rules.{trip, clock_limit};

use crate::dues::trip_of;
use crate::group::Group;
use crate::logging::tell;
use crate::questions::ask_log;
use pace::Pace;
use protocol::happening::{Happening, HappeningKind};
use protocol::kind::GroupKind;
use protocol::member::Member;
use protocol::party::Standing;
use protocol::plan::Plan;
use protocol::refusal::Refusal;
use protocol::table::Table;
use slots::SlotList;

impl<P: Pace> Group<P> {
    /// An outside party asks to be taken on the roll: its first joining beat goes out at once.
    #[tactic(auto, using(crate::proofs::Safe::sane_at, crate::proofs::Safe::sane_joins))]
    pub fn join(&mut self, log: &mut SlotList<'_, Happening>, party: u8) -> Result<(), Refusal>
        ensures { Does (Join party) self.old self.new log.old log.new result }
    {
        let member = ask_join(&self.plan, &self.table, log, party)?;
        let trip = trip_of(&self.pace);
        self.quiet_until = 0;
        do_join(&mut self.table, log, member, trip);
        Ok(())
    }
}

// Answers the party that is to join.
fn ask_join(
    plan: &Plan,
    table: &Table,
    log: &SlotList<'_, Happening>,
    party: u8,
) -> Result<Member, Refusal>
    ensures number { number_told result
        ≡ join_number plan.now (capacity log.now) party (state_of table.now log.now) }
    ensures ready { OnOk result (Ready log.now table.now.clock 2) }
    ensures member { IfOk result (λ member. member.number ≡ party) }
{
    let member = plan.member(party).ok_or(Refusal::NoSuchParty)?;
    if plan.kind() == GroupKind::Closed {
        return Err(Refusal::KindForbids);
    }
    if table.parties[member.index()].own.standing != Standing::Outside {
        return Err(Refusal::WrongState);
    }
    ask_log(table, log, 2)?;
    Ok(member)
}

#[tactic(auto, using(slots::proofs::Growing::extends_trans, crate::proofs::Appends::still_ready))]
fn do_join(table: &mut Table, log: &mut SlotList<'_, Happening>, member: Member, trip: u32)
    requires ready { Ready log.old table.old.clock 2 }
    requires early { table.old.clock ≤ clock_limit }
    requires brief { trip ≤ 1000000 }
    ensures extends { Extends log.old log.new }
    ensures after { state_of table.new log.new
        ≡ after_join trip member.number (state_of table.old log.old) }
{
    let clock = table.clock;
    let sending_place = log.len() + 1;
    table.parties[member.index()].join(clock, clock + trip, sending_place);
    tell(log, clock, member.number, HappeningKind::Joining);
    tell(log, clock, member.number, HappeningKind::Sent);
    table.logged = log.len();
}
