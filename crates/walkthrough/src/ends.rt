// How everybody ended, beside the bounds that they had to keep, and the file.
use crate::tell::Who;
use graphml::export::export;
use group::Group;
use pace::Pace;
use pace::limits::Limits;
use player::sizes::OUTPUT_BYTES;
use protocol::happening::Happening;
use protocol::party::{Party, Roll, Standing};
use protocol::table::Root;
use slots::SlotList;
use std::io;
use std::io::Write;

// Tells of a takeover timer of so many ticks, started at tick c, that is up before the end that it
// waits for.
fn tell_timer(rt: &impl Print, timer: &str, ticks: u32, c: u32, end: u32) -> io::Result<()> {
    let up = c as u64 + ticks as u64;
    if up < end as u64 {
        println!(rt;
            "    a takeover timer of {timer} = {ticks} would have been up at {up}, too early"
        )?;
    }
    Ok(())
}

// Who had to end within `bound` ticks of tick c; shorter timers in use are held against it.
fn tell_bound(
    rt: &impl Print,
    who: Who,
    limits: Limits,
    c: u32,
    bound: u32,
    end: Option<u32>,
) -> io::Result<()> {
    let by = c as u64 + bound as u64;
    let Some(end) = end else {
        return println!(rt; "  {who} has to end by {c} + {bound} = {by}");
    };
    println!(rt; "  {who} had to end by {c} + {bound} = {by}, and ended at {end}")?;
    let tmin = limits.tmin();
    let tmax = limits.tmax();
    tell_timer(rt, "2 * tmax", 2 * tmax, c, end)?;
    tell_timer(rt, "3 * tmax - tmin", 3 * tmax - tmin, c, end)
}

fn tell_standing(rt: &impl Print, number: u8, standing: Standing) -> io::Result<Option<u32>> {
    let who = Who(number);
    match standing {
        Standing::Outside => {
            println!(rt; "{who} is outside")?;
            Ok(None)
        }
        Standing::Live(stage) => {
            println!(rt; "{who} is {stage}")?;
            Ok(None)
        }
        Standing::Ended(ending, at, _) => {
            println!(rt; "{who} {ending} at {at}")?;
            Ok(Some(at))
        }
    }
}

// A party on the roll and the root end together: whoever ended first sets the bound of the other.
fn tell_party<P: Pace>(
    rt: &impl Print,
    group: &Group<P>,
    number: u8,
    party: Party,
) -> io::Result<()> {
    let ended = tell_standing(rt, number, party.own.standing)?;
    if party.note.roll != Roll::On {
        return Ok(());
    }
    let limits = group.pace().limits();
    let d = group.patience();
    let after_root = d.saturating_add(limits.tmin());
    let (who, c, bound, end) = match (group.root(), ended) {
        (Root::Running, None) => return Ok(()),
        (Root::Running, Some(c)) => (Who(0), c, d, None),
        (Root::Down(_, c), None) => (Who(number), c, after_root, None),
        (Root::Down(_, c), Some(end)) if c < end => (Who(number), c, after_root, Some(end)),
        (Root::Down(_, end), Some(c)) => (Who(0), c, d, Some(end)),
    };
    tell_bound(rt, who, limits, c, bound, end)
}

pub(crate) fn tell_ends<P: Pace>(rt: &impl Print, group: &Group<P>) -> io::Result<()> {
    let clock = group.clock();
    println!(rt)?;
    println!(rt; "the clock is {clock}")?;
    match group.root() {
        Root::Running => println!(rt; "root is running")?,
        Root::Down(ending, at) => println!(rt; "root {ending} at {at}")?,
    }
    for number in 1..=group.plan().parties() {
        if let Some(party) = group.party(number) {
            tell_party(rt, group, number, party)?;
        }
    }
    Ok(())
}

pub(crate) fn tell_file<P: Pace>(
    rt: &HostRuntime,
    group: &Group<P>,
    log: &SlotList<'_, Happening>,
) -> io::Result<()> {
    let mut out = vec![in rt.alloc(); 0u8; OUTPUT_BYTES]?;
    println!(rt)?;
    match export(group, log, out.as_mut_slice()) {
        Ok(exported) => {
            let extent = if exported.whole { "whole" } else { "cut" };
            let bytes = exported.bytes;
            let happenings = exported.happenings;
            let edges = exported.edges;
            println!(rt;
                "the file is {extent}: {bytes} bytes, {happenings} happenings, {edges} edges"
            )?;
            rt.stdout()
                .write_all(out.as_slice().get(0..bytes).unwrap_or(&[]))
        }
        Err(refusal) => {
            let number = refusal.number();
            println!(rt; "the export is refused by number {number}")
        }
    }
}
