// Lose: the beat on a leg of a party is lost.
ghost use Rattle.std.specs.Prelude.{◌≡◌, Some};
ghost use Rattle.slots.specs.Slots.{Extends};
ghost use Rattle.protocol.specs.calls.Lose.{after_loss_of};
ghost use Rattle.protocol.specs.Legs.{leg_number};
ghost use Rattle.protocol.specs.Views.{state_of, Ready};
ghost use Rattle.protocol.specs.declared.call.Call.TheVariants.{Lose};
ghost use Rattle.group.specs.Does.{Does};

use crate::group::Group;
use crate::logging::log_record;
use crate::questions::ask_beat;
use pace::Pace;
use protocol::happening::{Happening, HappeningKind};
use protocol::member::Member;
use protocol::party::{Beat, Leg};
use protocol::refusal::Refusal;
use protocol::table::Table;
use slots::SlotList;

impl<P: Pace> Group<P> {
    /// The beat on a leg of a party is lost. Leg 1 goes to the party, leg 2 carries its replies,
    /// leg 3 its joining beats.
    #[tactic(auto, using(crate::proofs::Safe::sane_at, crate::proofs::Safe::sane_lost))]
    pub fn lose(
        &mut self,
        log: &mut SlotList<'_, Happening>,
        party: u8,
        leg: u8,
    ) -> Result<(), Refusal>
        ensures { Does (Lose party leg) self.old self.new log.old log.new result }
    {
        let (member, leg, beat) = ask_beat(&self.plan, &self.table, log, party, leg)?;
        self.quiet_until = 0;
        do_lose(&mut self.table, log, member, leg, beat);
        Ok(())
    }
}

fn do_lose(
    table: &mut Table,
    log: &mut SlotList<'_, Happening>,
    member: Member,
    leg: Leg,
    beat: Beat,
)
    requires { Ready log.old table.old.clock 2 }
    ensures extends { Extends log.old log.new }
    ensures after { state_of table.new log.new
        ≡ after_loss_of (Some beat) member.number (leg_number leg) (state_of table.old log.old) }
{
    let owner = match leg {
        Leg::Out => 0,
        Leg::Reply | Leg::Entry => member.number,
    };
    table.parties[member.index()].take_off(leg);
    log_record(
        log,
        Happening {
            tick: table.clock,
            owner,
            kind: HappeningKind::Lost,
            link: beat.place,
        },
    );
    table.logged = log.len();
}
