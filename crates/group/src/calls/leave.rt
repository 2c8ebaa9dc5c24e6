// Leave: a party that is in begins to leave.
ghost use Rattle.std.specs.Prelude.{◌≡◌, IfOk, OnOk};
ghost use Rattle.slots.specs.Slots.{capacity, Extends};
ghost use Rattle.protocol.specs.Answers.{number_told};
ghost use Rattle.protocol.specs.calls.Leave.{after_leave, leave_number};
ghost use Rattle.protocol.specs.Views.{state_of, Ready};
ghost use Rattle.protocol.specs.declared.call.Call.TheVariants.{Leave};
ghost use Rattle.group.specs.Does.{Does};

use crate::group::Group;
use crate::logging::tell;
use crate::questions::ask_log;
use pace::Pace;
use protocol::happening::{Happening, HappeningKind};
use protocol::kind::GroupKind;
use protocol::member::Member;
use protocol::party::{Stage, Standing};
use protocol::plan::Plan;
use protocol::refusal::Refusal;
use protocol::table::Table;
use slots::SlotList;

impl<P: Pace> Group<P> {
    /// A party that is in begins to leave: its next reply is a parting one.
    #[tactic(auto, using(crate::proofs::Safe::sane_at, crate::proofs::Safe::sane_leaves))]
    pub fn leave(&mut self, log: &mut SlotList<'_, Happening>, party: u8) -> Result<(), Refusal>
        ensures { Does (Leave party) self.old self.new log.old log.new result }
    {
        let member = ask_leave(&self.plan, &self.table, log, party)?;
        self.quiet_until = 0;
        do_leave(&mut self.table, log, member);
        Ok(())
    }
}

// Answers the party that is to leave.
fn ask_leave(
    plan: &Plan,
    table: &Table,
    log: &SlotList<'_, Happening>,
    party: u8,
) -> Result<Member, Refusal>
    ensures number { number_told result
        ≡ leave_number plan.now (capacity log.now) party (state_of table.now log.now) }
    ensures ready { OnOk result (Ready log.now table.now.clock 2) }
    ensures member { IfOk result (λ member. member.number ≡ party) }
{
    let member = plan.member(party).ok_or(Refusal::NoSuchParty)?;
    if plan.kind() != GroupKind::Dynamic {
        return Err(Refusal::KindForbids);
    }
    if table.parties[member.index()].own.standing != Standing::Live(Stage::In) {
        return Err(Refusal::WrongState);
    }
    ask_log(table, log, 2)?;
    Ok(member)
}

fn do_leave(table: &mut Table, log: &mut SlotList<'_, Happening>, member: Member)
    requires { Ready log.old table.old.clock 2 }
    ensures extends { Extends log.old log.new }
    ensures after { state_of table.new log.new
        ≡ after_leave member.number (state_of table.old log.old) }
{
    table.parties[member.index()].own.standing = Standing::Live(Stage::Leaving);
    tell(log, table.clock, member.number, HappeningKind::Leaving);
    table.logged = log.len();
}
