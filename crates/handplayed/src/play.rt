// What the cases share: making a pace and a plan, playing a run, and what it came to.
use group::Group;
use pace::Pace;
use pace::halving::Halving;
use pace::limits::Limits;
use protocol::call::Call;
use protocol::happening::{Happening, HappeningKind};
use protocol::kind::GroupKind;
use protocol::party::{Ending, Standing};
use protocol::plan::Plan;
use protocol::refusal::Refusal;
use protocol::table::{Root, RootEnding};
use slots::SlotList;
use std::process::Abort;
use std::test::Fail;

pub(crate) fn limits(tmin: u32, tmax: u32) -> Result<Limits, Fail> {
    Ok(Limits::new(tmin, tmax)?)
}

pub(crate) fn halving(tmin: u32, tmax: u32) -> Result<Halving, Fail> {
    Ok(Halving::new(limits(tmin, tmax)?))
}

// A plan of one party beside the root.
pub(crate) fn pair(kind: GroupKind) -> Result<Plan, Fail> {
    Ok(Plan::new(kind, 1)?)
}

// The number of a refusal as it tells it, 0 for none: so the worked cases name an answer.
pub(crate) fn number<R, F: FnOnce(R) -> u8>(answer: Result<(), R>, told: F) -> u8
    requires { F.IsAlwaysCallable told }
{
    answer.err().map_or(0, told)
}

// What a run of one party came to: the ticks at which the root and the party stopped, if they did,
// the beats sent, and D.
#[derive(Drop)]
pub(crate) struct Outcome {
    pub(crate) root_stop: Option<u32>,
    pub(crate) party_stop: Option<u32>,
    pub(crate) sent: usize,
    pub(crate) patience: u32,
}

// The first call, then so many times the others, some of which may be refused, and a tick.
pub(crate) fn play(
    rt: &impl Abort,
    kind: GroupKind,
    pace: Halving,
    first: Call,
    each: &[Call],
    ticks: u32,
) -> Result<Outcome, Fail> {
    let mut slots = [Happening::default(); 64];
    let mut log = SlotList::new(&mut slots);
    let mut group = Group::open(pace, pair(kind)?);
    assert_eq!(rt; number(group.perform(&mut log, first), Refusal::number), 0);
    for _ in 0..ticks {
        for call in each {
            let _ = group.perform(&mut log, *call);
        }
        assert_eq!(rt; number(group.tick(&mut log), Refusal::number), 0);
    }
    let sent = count_sent(log.as_slice());
    Ok(Outcome {
        root_stop: root_stop(&group),
        party_stop: party_stop(&group),
        sent,
        patience: group.patience(),
    })
}

pub(crate) fn root_stop<P: Pace>(group: &Group<P>) -> Option<u32> {
    match group.root() {
        Root::Down(RootEnding::Stopped, at) => Some(at),
        _ => None,
    }
}

pub(crate) fn party_stop<P: Pace>(group: &Group<P>) -> Option<u32> {
    match group.party(1)?.own.standing {
        Standing::Ended(Ending::Stopped, at, _) => Some(at),
        _ => None,
    }
}

fn count_sent(log: &[Happening]) -> usize {
    log.iter()
        .filter(|happening| happening.kind == HappeningKind::Sent)
        .count()
}
