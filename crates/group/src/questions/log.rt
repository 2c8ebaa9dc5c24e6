// The questions on the log.
ghost use Rattle.std.specs.Prelude.{◌≡◌, ◌≤◌, OnOk};
ghost use Rattle.slots.specs.Slots.{capacity};
ghost use Rattle.protocol.specs.Answers.{number_told};
ghost use Rattle.protocol.specs.Questions.{log_asks, is_own_log};
ghost use Rattle.protocol.specs.Views.{state_of, Ready};

use protocol::happening::Happening;
use protocol::refusal::Refusal;
use protocol::table::Table;
use slots::SlotList;

// Are so many slots free, and is this the log that the group wrote?
#[tactic(auto, using(slots::proofs::Growing::items_length))]
pub(crate) fn ask_log(
    table: &Table,
    log: &SlotList<'_, Happening>,
    wanted: usize,
) -> Result<(), Refusal>
    requires { wanted ≤ 64 }
    ensures number { number_told result
        ≡ log_asks wanted (capacity log.now) (state_of table.now log.now) }
    ensures ready { OnOk result (Ready log.now table.now.clock wanted) }
{
    if log.free() < wanted {
        return Err(Refusal::NoSlot);
    }
    if !is_own_log(table, log) {
        return Err(Refusal::LogDiffers);
    }
    Ok(())
}

// Is the count of records right, and the last of them of no later tick than the clock? Ticks never
// fall in a log, so no other record can be later.
pub(crate) fn is_own_log(table: &Table, log: &SlotList<'_, Happening>) -> bool
    ensures { result ≡ is_own_log (state_of table.now log.now) }
{
    log.len() == table.logged && log.last_tick() <= table.clock
}
