// The questions on a beat that is to arrive or to be lost.
ghost use Rattle.std.specs.Prelude.{◌≡◌, IfOk, OnOk, Some};
ghost use Rattle.slots.specs.Slots.{capacity};
ghost use Rattle.protocol.specs.Answers.{number_told};
ghost use Rattle.protocol.specs.Legs.{leg_number};
ghost use Rattle.protocol.specs.Party.{on_leg};
ghost use Rattle.protocol.specs.State.{the};
ghost use Rattle.protocol.specs.calls.Deliver.{beat_number};
ghost use Rattle.protocol.specs.Views.{state_of, Ready};

use crate::questions::log::ask_log;
use protocol::happening::Happening;
use protocol::member::Member;
use protocol::party::{Beat, Leg};
use protocol::plan::Plan;
use protocol::refusal::Refusal;
use protocol::table::Table;
use slots::SlotList;

// Answers the party, the leg and the beat on it. A loss is asked what a delivery is.
pub(crate) fn ask_beat(
    plan: &Plan,
    table: &Table,
    log: &SlotList<'_, Happening>,
    party: u8,
    leg: u8,
) -> Result<(Member, Leg, Beat), Refusal>
    ensures number { number_told result
        ≡ beat_number plan.now (capacity log.now) party leg (state_of table.now log.now) }
    ensures ready { OnOk result (Ready log.now table.now.clock 2) }
    ensures member { IfOk result (λ found. found.0.number ≡ party) }
    ensures leg { IfOk result (λ found. leg_number found.1 ≡ leg) }
    ensures beat { IfOk result (λ found. on_leg leg (the party table.now) ≡ Some found.2) }
{
    let member = plan.member(party).ok_or(Refusal::NoSuchParty)?;
    let leg = Leg::numbered(leg).ok_or(Refusal::NoBeat)?;
    let beat = table.parties[member.index()]
        .on_leg(leg)
        .ok_or(Refusal::NoBeat)?;
    ask_log(table, log, 2)?;
    Ok((member, leg, beat))
}
