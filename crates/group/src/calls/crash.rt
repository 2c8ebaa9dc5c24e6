// Crash: the root or a party crashes.
ghost use Rattle.std.specs.Prelude.{◌≡◌, true, [], IfOk, OnOk};
ghost use Rattle.slots.specs.Slots.{capacity, Extends};
ghost use Rattle.protocol.specs.Answers.{number_told};
ghost use Rattle.protocol.specs.calls.Crash.{after_crash, can_crash, crash_number};
ghost use Rattle.protocol.specs.Runs.{number};
ghost use Rattle.protocol.specs.Views.{state_of, Ready};
ghost use Rattle.protocol.specs.declared.call.Call.TheVariants.{Crash};
ghost use Rattle.group.specs.Does.{Does};
ghost use Rattle.group.specs.Named.{number_of};

use crate::group::Group;
use crate::logging::tell;
use crate::questions::ask_log;
use pace::Pace;
use protocol::happening::{Happening, HappeningKind};
use protocol::member::Member;
use protocol::plan::Plan;
use protocol::refusal::Refusal;
use protocol::table::{Root, RootEnding, Table};
use slots::SlotList;

impl<P: Pace> Group<P> {
    /// A party crashes, or the root, which is party 0.
    #[tactic(auto, using(crate::proofs::Safe::sane_at, crate::proofs::Safe::sane_crashed))]
    pub fn crash(&mut self, log: &mut SlotList<'_, Happening>, party: u8) -> Result<(), Refusal>
        ensures { Does (Crash party) self.old self.new log.old log.new result }
    {
        let member = ask_crash(&self.plan, &self.table, log, party)?;
        self.quiet_until = 0;
        do_crash(&mut self.table, log, member);
        Ok(())
    }
}

// Answers the party that is to crash, or none for the root.
fn ask_crash(
    plan: &Plan,
    table: &Table,
    log: &SlotList<'_, Happening>,
    party: u8,
) -> Result<Option<Member>, Refusal>
    ensures number { number_told result
        ≡ crash_number plan.now (capacity log.now) party (state_of table.now log.now) }
    ensures ready { OnOk result (Ready log.now table.now.clock 2) }
    ensures member { IfOk result (λ member. number_of member ≡ party) }
{
    let member = plan.member(party);
    let can_crash = match member {
        Some(member) => table.parties[member.index()].is_live(),
        None if party == 0 => table.root == Root::Running,
        None => return Err(Refusal::NoSuchParty),
    };
    if !can_crash {
        return Err(Refusal::WrongState);
    }
    ask_log(table, log, 2)?;
    Ok(member)
}

// No member is the root.
fn do_crash(table: &mut Table, log: &mut SlotList<'_, Happening>, member: Option<Member>)
    requires ready { Ready log.old table.old.clock 2 }
    requires able { can_crash (number_of member) (record { table = table.old; log = [] }) ≡ true }
    ensures extends { Extends log.old log.new }
    ensures after { state_of table.new log.new
        ≡ after_crash (number_of member) (state_of table.old log.old) }
{
    let clock = table.clock;
    let owner = match member {
        Some(member) => {
            let _ = table.parties[member.index()].crash(clock);
            member.number
        }
        None => {
            table.root = Root::Down(RootEnding::Crashed, clock);
            0
        }
    };
    tell(log, clock, owner, HappeningKind::Crashed);
    table.logged = log.len();
}
