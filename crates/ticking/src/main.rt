// For the benchmark: opens the group that the order file on standard input asks for, without its
// cap, and closes every tick, one by one, up to the tick of the last order. The orders themselves
// are not carried out.
#![tactic(auto)]

use orders::load::load;
use orders::order::Order;
use orders::start::Start;
use player::file_pace::FilePace;
use player::sizes::{INPUT_BYTES, LOG_SLOTS, ORDER_SLOTS};
use protocol::call::Call;
use protocol::happening::Happening;
use protocol::plan::Plan;
use runs::run::Run;
use slots::SlotList;
use slots::timed::Timed;
use std::io;
use std::io::Read;

// Answers the clock at which the ticks ended; a refused one ends them too. None where the limits or
// the plan are refused.
fn tick_to(start: Start, until: u32, slots: &mut [Happening]) -> Option<u32> {
    let pace = FilePace::new(start).ok()?;
    let plan = Plan::new(start.kind, start.parties).ok()?;
    let mut run = Run::open(pace, plan, slots);
    for _ in 0..until {
        if run.perform(Call::Tick).is_err() {
            break;
        }
    }
    Some(run.group.clock())
}

fn main(rt: HostRuntime) -> io::Result<()> {
    let heap = rt.alloc();
    let mut input = Vec::new(heap);
    rt.stdin().take(INPUT_BYTES).read_to_end(&mut input)?;
    let mut order_slots = vec![in heap; Order::default(); ORDER_SLOTS]?;
    let mut log_slots = vec![in heap; Happening::default(); LOG_SLOTS]?;
    let mut orders = SlotList::new(order_slots.as_mut_slice());
    let clock = match load(input.as_slice(), &mut orders) {
        Ok(start) => tick_to(start, orders.last_tick(), log_slots.as_mut_slice()),
        Err(_) => None,
    };
    match clock {
        Some(clock) => println!(rt; "the clock is {clock}"),
        None => println!(rt; "no such group"),
    }
}
