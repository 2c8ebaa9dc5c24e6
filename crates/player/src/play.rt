// Plays a list of orders over a group.
ghost use Rattle.std.specs.Prelude.{◌≡◌};
ghost use Rattle.slots.specs.Slots.{items};
ghost use Rattle.runs.specs.Runs.{Makes};
ghost use Rattle.player.specs.declared.play.PlayFault.TheVariants.{Refused};
ghost use Rattle.player.specs.Playing.{own_call, calls_for, fault_number, fault_told, Plays};

use group::Group;
use orders::order::{Order, OrderKind};
use pace::Pace;
use protocol::call::Call;
use protocol::happening::Happening;
use protocol::refusal::Refusal;
use runs::making::tick_to;
use slots::SlotList;

/// Why the playing of an order ended.
#[derive(Clone, Copy, Debug, PartialEq, Eq)]
pub enum PlayFault {
    /// The group refused a call.
    Refused(Refusal),
}

impl From<Refusal> for PlayFault {
    ghost from_gives = { λ g f. f ≡ Refused g };

    fn from(refusal: Refusal) -> PlayFault {
        PlayFault::Refused(refusal)
    }
}

impl PlayFault {
    // The number of the question that was answered no.
    pub(crate) fn number(self) -> u8
        ensures { result ≡ fault_number self }
    {
        match self {
            PlayFault::Refused(refusal) => refusal.number(),
        }
    }
}

/// The order at which the playing ended, by its place from 0, and why.
#[derive(Clone, Copy, Debug, PartialEq, Eq)]
pub struct PlayStop {
    pub order: usize,
    pub fault: PlayFault,
}

/// The call that an order asks for beside its ticks; a wait asks for none.
pub fn own_call(order: Order) -> Option<Call>
    ensures { result ≡ own_call order }
{
    match order.kind {
        OrderKind::Deliver => Some(Call::Deliver(order.party, order.leg)),
        OrderKind::Lose => Some(Call::Lose(order.party, order.leg)),
        OrderKind::Crash => Some(Call::Crash(order.party)),
        OrderKind::Join => Some(Call::Join(order.party)),
        OrderKind::Leave => Some(Call::Leave(order.party)),
        OrderKind::Wait => None,
    }
}

// Brings the clock to the tick of the order, and then makes the order's call.
fn obey<P: Pace>(
    group: &mut Group<P>,
    log: &mut SlotList<'_, Happening>,
    order: Order,
) -> Result<(), PlayFault>
    ensures { Makes (calls_for group.old.table.clock order)
        group.old group.new log.old log.new (fault_told result) }
{
    tick_to(group, log, order.tick)?;
    if let Some(call) = own_call(order) {
        group.perform(log, call)?;
    }
    Ok(())
}

/// Plays the orders in turn. The playing ends with the first refusal, and keeps what came before it.
pub fn play<P: Pace>(
    group: &mut Group<P>,
    orders: &SlotList<'_, Order>,
    log: &mut SlotList<'_, Happening>,
) -> Result<(), PlayStop>
    ensures { Plays (items orders.now) group.old group.new log.old log.new result }
{
    let all = orders.as_slice();
    for (place, order) in all.iter().enumerate() {
        obey(group, log, *order).map_err(|fault| PlayStop {
            order: place,
            fault,
        })?;
    }
    Ok(())
}
