// A text in, an order file out.
ghost use Rattle.std.specs.Prelude.{◌≡◌, ◌≤◌, ◌++◌, length, take, drop, IfOk};
ghost use Rattle.schedule.specs.Texts.{reading_of};
ghost use Rattle.schedule.specs.Composing.{compose_answer, output, LoadsAs};
ghost use Rattle.schedule.specs.Example.{TextsByHand};
ghost use Rattle.schedule.specs.Rendering.{RenderedTextsRead};

use crate::complaint::{Cause, Complaint};
use crate::lines::Lines;
use crate::read::{read_orders, read_start};
use crate::write::write;
use orders::order::Order;
use slots::SlotList;

/// Reads a whole text, its orders into `order_slots`, and only then writes the order file into
/// `out`. Answers how many bytes the file has; later bytes keep what they held.
pub fn compose(text: &[u8], order_slots: &mut [Order], out: &mut [u8]) -> Result<usize, Complaint>
    ensures answer { result
        ≡ compose_answer (reading_of text.now order_slots.old) (length out.old) }
    ensures output { out.new ≡ output (reading_of text.now order_slots.old) out.old }
    ensures slots { order_slots.new ≡ (reading_of text.now order_slots.old).items
        ++ drop (length (reading_of text.now order_slots.old).items) order_slots.old }
    ensures within { IfOk result (λ size. size ≤ length out.new) }
    ensures loads { IfOk result
        (λ size. LoadsAs (reading_of text.now order_slots.old) (take size out.new)) }
    ensures reads_back { RenderedTextsRead }
    ensures by_hand { TextsByHand }
{
    let mut lines = Lines::new(text);
    let mut list = SlotList::new(order_slots);
    let start = read_start(&mut lines)?;
    read_orders(&mut lines, &mut list)?;
    write(start, list.as_slice(), out).ok_or(Complaint {
        line: lines.number() + 1,
        cause: Cause::NoRoom,
    })
}
