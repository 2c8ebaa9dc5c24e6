// Reads a text line by line: the start first, and then the orders into a list.
ghost use Rattle.std.specs.Prelude.{◌≡◌, List};
ghost use Rattle.slots.specs.Slots.{items, spare, Extends};
ghost use Rattle.schedule.specs.Cuts.{lines_in, line_words};
ghost use Rattle.schedule.specs.Records.{start_in, order_in};
ghost use Rattle.schedule.specs.Texts.{Reading, start_lines_from, order_lines_from, order_reading};
ghost use Rattle.schedule.specs.Steps.{at_line, past_start, past_line, past_orders};

use crate::complaint::{Cause, Complaint};
use crate::lines::Lines;
use crate::records::{order_in, start_in};
use orders::order::Order;
use orders::start::Start;
use slots::SlotList;

// The first line with words is the start.
pub(crate) fn read_start(lines: &mut Lines<'_>) -> Result<Start, Complaint>
    ensures { (xs ys : List Order)
        → start_lines_from lines.old.number (lines_in lines.old.rest.now) xs ys
        ≡ past_start result lines.new.number (lines_in lines.new.rest.now) xs ys }
{
    while let Some(text) = lines.next() {
        if let Some(start) = start_at(text, lines.number())? {
            return Ok(start);
        }
    }
    Err(Complaint {
        line: lines.number() + 1,
        cause: Cause::NoStart,
    })
}

// The start that a line holds, if any.
fn start_at(text: &[u8], line: usize) -> Result<Option<Start>, Complaint>
    ensures { result ≡ at_line line (start_in (line_words text.now)) }
{
    start_in(text).map_err(|cause| Complaint { line, cause })
}

// Every later line with words is an order.
pub(crate) fn read_orders(
    lines: &mut Lines<'_>,
    list: &mut SlotList<'_, Order>,
) -> Result<(), Complaint>
    ensures read { (s : Start)
        → order_lines_from s lines.old.number (lines_in lines.old.rest.now)
        (items list.old) (spare list.old)
        ≡ past_orders s result lines.new.number (items list.new) (spare list.new) }
    ensures extends { Extends list.old list.new }
{
    while let Some(text) = lines.next() {
        add_order(text, lines.number(), list)?;
    }
    Ok(())
}

// Appends the order that a line holds, if any.
fn add_order(text: &[u8], line: usize, list: &mut SlotList<'_, Order>) -> Result<(), Complaint>
    ensures met { (more : List Order → List Order → Reading)
        → order_reading line more (items list.old) (spare list.old) (order_in (line_words text.now))
        ≡ past_line result more (items list.new) (spare list.new) }
    ensures extends { Extends list.old list.new }
{
    if let Some(order) = order_in(text).map_err(|cause| Complaint { line, cause })? {
        list.append(order).map_err(|refusal| Complaint {
            line,
            cause: refusal.into(),
        })?;
    }
    Ok(())
}
