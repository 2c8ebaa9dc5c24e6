// The playing itself: each happening is told when it happens.
use crate::ends::{tell_ends, tell_file};
use crate::intro::introduce;
use crate::tell::{tell, tell_refusal};
use orders::order::Order;
use pace::Pace;
use player::play::own_call;
use player::sizes::LOG_SLOTS;
use protocol::happening::Happening;
use protocol::plan::Plan;
use protocol::refusal::Refusal;
use runs::run::Run;
use std::io;

// Tells what was written from a place of the log on, and then the refusal, if there was one; the
// answer is handed on.
fn tell_since<P: Pace>(
    rt: &impl Print,
    run: &Run<'_, P>,
    from: usize,
    answer: Result<(), Refusal>,
) -> io::Result<Result<(), Refusal>> {
    let records = run.log.as_slice();
    for (place, happening) in records.iter().enumerate().skip(from) {
        tell(rt, &run.group, records, place, *happening)?;
    }
    if let Err(refusal) = answer {
        tell_refusal(rt, run.group.clock(), refusal)?;
    }
    Ok(answer)
}

// Brings the clock to the order's tick and carries the order out, up to the first refusal. What the
// ticks wrote is told before that: until then each beat that they sent is still on its leg.
fn obey<P: Pace>(
    rt: &impl Print,
    run: &mut Run<'_, P>,
    order: &Order,
) -> io::Result<Result<(), Refusal>> {
    let from = run.log.len();
    let ticked = run.tick_to(order.tick);
    let told = tell_since(rt, run, from, ticked)?;
    match own_call(*order) {
        Some(call) if told.is_ok() => {
            let from = run.log.len();
            let answer = run.perform(call);
            tell_since(rt, run, from, answer)
        }
        _ => Ok(told),
    }
}

// Plays the orders over a new group, up to the first refusal; then tells how everybody ended, and
// the file.
pub(crate) fn walk<P: Pace + Drop>(
    rt: &HostRuntime,
    pace: P,
    plan: Plan,
    orders: &[Order],
) -> io::Result<()> {
    let mut slots = vec![in rt.alloc(); Happening::default(); LOG_SLOTS]?;
    let mut run = Run::open(pace, plan, slots.as_mut_slice());
    introduce(rt, &run.group)?;
    for (place, order) in orders.iter().enumerate() {
        if obey(rt, &mut run, order)?.is_err() {
            println!(rt; "the playing ends at order {place}")?;
            break;
        }
    }
    tell_ends(rt, &run.group)?;
    tell_file(rt, &run.group, &run.log)
}
