// What is known before the first tick: the limits, the waits, and the bounds that follow from them.
use group::Group;
use pace::Pace;
use pace::total::total;
use protocol::kind::GroupKind;
use std::io;

fn tell_waits<P: Pace>(rt: &impl Print, pace: &P) -> io::Result<()> {
    let rounds = pace.rounds();
    print!(rt; "R = {rounds} waits:")?;
    for wait in (0..rounds).filter_map(|k| pace.wait(k)) {
        print!(rt; " {wait}")?;
    }
    let sum = total(pace);
    println!(rt; "; S, their sum, is {sum}")
}

pub(crate) fn introduce<P: Pace>(rt: &impl Print, group: &Group<P>) -> io::Result<()> {
    let plan = group.plan();
    let parties = plan.parties();
    let kind = plan.kind();
    let made_of = match kind {
        GroupKind::Closed => "tmax + S",
        GroupKind::Expanding | GroupKind::Dynamic => "tmax + S + tmin",
    };
    let limits = group.pace().limits();
    let tmin = limits.tmin();
    let tmax = limits.tmax();
    let d = group.patience();
    let after_root = d as u64 + tmin as u64;
    println!(rt; "A {kind} group, parties: {parties}. tmin {tmin}, tmax {tmax}.")?;
    tell_waits(rt, group.pace())?;
    println!(rt; "D = {made_of} = {d}: a party that hears nothing for D ticks ends.")?;
    println!(rt; "When may a second controller take over?")?;
    println!(rt;
        "  A party on the roll ended at tick c: past c + D = c + {d}, for by then the root has ended."
    )?;
    println!(rt;
        "  The root ended at tick c: past c + D + tmin = c + {after_root}, for by then each party on the roll has ended."
    )?;
    println!(rt)
}
