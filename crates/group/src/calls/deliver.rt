// Deliver: the beat on a leg of a party arrives, at the party or at the root.
ghost use Rattle.std.specs.Prelude.{◌≡◌, Some};
ghost use Rattle.slots.specs.Slots.{items, Extends};
ghost use Rattle.protocol.specs.calls.Deliver.{arrival_log, after_arrival};
ghost use Rattle.protocol.specs.Legs.{leg_number};
ghost use Rattle.protocol.specs.Views.{state_of, Ready};
ghost use Rattle.protocol.specs.declared.call.Call.TheVariants.{Deliver};
ghost use Rattle.group.specs.Does.{Does};
ghost use Rattle.group.specs.Follows.{followed};

use crate::group::Group;
use crate::logging::{log_record, tell};
use crate::questions::ask_beat;
use pace::Pace;
use protocol::happening::{Happening, HappeningKind};
use protocol::member::Member;
use protocol::party::{Beat, Leg, Party, Roll};
use protocol::refusal::Refusal;
use protocol::table::{Root, Table};
use slots::SlotList;

impl<P: Pace> Group<P> {
    /// The beat on a leg of a party arrives. Leg 1 goes to the party, leg 2 carries its replies,
    /// leg 3 its joining beats.
    #[tactic(auto, using(crate::proofs::Safe::sane_at, crate::proofs::Safe::sane_delivered))]
    pub fn deliver(
        &mut self,
        log: &mut SlotList<'_, Happening>,
        party: u8,
        leg: u8,
    ) -> Result<(), Refusal>
        ensures { Does (Deliver party leg) self.old self.new log.old log.new result }
    {
        let (member, leg, beat) = ask_beat(&self.plan, &self.table, log, party, leg)?;
        self.quiet_until = 0;
        do_deliver(&mut self.table, log, member, leg, beat);
        Ok(())
    }
}

fn do_deliver(
    table: &mut Table,
    log: &mut SlotList<'_, Happening>,
    member: Member,
    leg: Leg,
    beat: Beat,
)
    requires { Ready log.old table.old.clock 2 }
    ensures extends { Extends log.old log.new }
    ensures after { state_of table.new log.new
        ≡ after_arrival (Some beat) member.number (leg_number leg) (state_of table.old log.old) }
{
    let clock = table.clock;
    let root = table.root;
    let reply_place = log.len() + 1;
    let party = &mut table.parties[member.index()];
    let before = *party;
    party.arrive(clock, root, leg, beat, reply_place);
    tell_arrival(log, clock, root, leg, beat, member.number, before);
    table.logged = log.len();
}

// The records of an arrival at a party, or at the root from it, by what the party was before.
#[tactic(auto, using(slots::proofs::Growing::extends_trans, crate::proofs::Appends::still_ready))]
fn tell_arrival(
    log: &mut SlotList<'_, Happening>,
    tick: u32,
    root: Root,
    leg: Leg,
    beat: Beat,
    owner: u8,
    party: Party,
)
    requires { Ready log.old tick 2 }
    ensures extends { Extends log.old log.new }
    ensures items { items log.new ≡ arrival_log tick root (leg_number leg) beat owner party (items log.old) }
{
    let receiver = match leg {
        Leg::Out => owner,
        Leg::Reply | Leg::Entry => 0,
    };
    log_record(
        log,
        Happening {
            tick,
            owner: receiver,
            kind: HappeningKind::Arrived,
            link: beat.place,
        },
    );
    if let Some(kind) = follows_arrival(root, leg, beat, party) {
        tell(log, tick, owner, kind);
    }
}

// What is told after an arrival, if anything.
fn follows_arrival(root: Root, leg: Leg, beat: Beat, party: Party) -> Option<HappeningKind>
    ensures { result ≡ followed root (leg_number leg) beat party }
{
    if leg == Leg::Out {
        return party.is_live().then_some(HappeningKind::Sent);
    }
    match (root, party.note.roll, beat.parting) {
        (Root::Running, Roll::On | Roll::Off, true) => Some(HappeningKind::Struck),
        (Root::Running, Roll::Off, false) => Some(HappeningKind::Enrolled),
        _ => None,
    }
}
