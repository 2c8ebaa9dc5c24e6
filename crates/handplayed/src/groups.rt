use crate::play::*;
use group::Group;
use pace::halving::Halving;
use protocol::call::Call;
use protocol::happening::Happening;
use protocol::kind::GroupKind;
use protocol::refusal::Refusal;
use slots::SlotList;
use std::process::Abort;
use std::test::Fail;

const DELIVERIES: [Call; 2] = [Call::Deliver(1, 1), Call::Deliver(1, 2)];

// The clock is 2 from the third call on.
const SCRIPT: [(Call, u8); 7] = [
    (Call::Tick, 0),
    (Call::Tick, 0),
    (Call::Tick, 11),
    (Call::Deliver(1, 1), 0),
    (Call::Tick, 11),
    (Call::Deliver(1, 2), 0),
    (Call::Tick, 0),
];

#[test]
fn root_stops_28_ticks_after_its_party_crashed(rt: HostRuntime) -> Result<(), Fail> {
    let run = play(
        &rt,
        GroupKind::Closed,
        halving(1, 10)?,
        Call::Crash(1),
        &DELIVERIES,
        29,
    )?;
    assert_eq!(rt; run.root_stop, Some(28));
    assert_eq!(rt; run.patience, 28);
    Ok(())
}

#[test]
fn party_stops_28_ticks_after_the_root_crashed(rt: HostRuntime) -> Result<(), Fail> {
    let run = play(
        &rt,
        GroupKind::Closed,
        halving(1, 10)?,
        Call::Crash(0),
        &DELIVERIES,
        29,
    )?;
    assert_eq!(rt; run.party_stop, Some(28));
    Ok(())
}

#[test]
fn joining_party_sends_six_beats_and_stops_at_12(rt: HostRuntime) -> Result<(), Fail> {
    let run = play(
        &rt,
        GroupKind::Expanding,
        halving(2, 4)?,
        Call::Join(1),
        &[Call::Lose(1, 3)],
        13,
    )?;
    assert_eq!(rt; run.sent, 6);
    assert_eq!(rt; run.party_stop, Some(12));
    Ok(())
}

// Makes each call and compares its number.
fn check_calls(
    rt: &impl Abort,
    group: &mut Group<Halving>,
    log: &mut SlotList<'_, Happening>,
    script: &[(Call, u8)],
) {
    for (call, expected) in script {
        assert_eq!(rt;
            number(group.perform(log, *call), Refusal::number),
            *expected
        );
    }
}

#[test]
fn tick_waits_for_a_due_beat_and_its_reply(rt: HostRuntime) -> Result<(), Fail> {
    let mut slots = [Happening::default(); 64];
    let mut log = SlotList::new(&mut slots);
    let mut group = Group::open(halving(1, 1)?, pair(GroupKind::Closed)?);
    check_calls(&rt, &mut group, &mut log, &SCRIPT);
    assert_eq!(rt; root_stop(&group), None);
    assert_eq!(rt; party_stop(&group), None);
    assert_eq!(rt; (slots[0].tick, slots[0].kind.word()), (1, "sent"));
    Ok(())
}

#[test]
fn advancing_stops_where_a_beat_is_due(rt: HostRuntime) -> Result<(), Fail> {
    let mut slots = [Happening::default(); 64];
    let mut log = SlotList::new(&mut slots);
    let mut group = Group::open(halving(1, 1)?, pair(GroupKind::Closed)?);
    for answer in [0, 11] {
        assert_eq!(rt; number(group.advance(&mut log, 5), Refusal::number), answer);
        assert_eq!(rt; group.clock(), 2);
        assert_eq!(rt; group.logged(), 1);
    }
    assert_eq!(rt; number(group.advance(&mut log, 2), Refusal::number), 0);
    Ok(())
}

#[test]
fn advancing_ends_the_party_and_stops_at_the_clocks_limit(rt: HostRuntime) -> Result<(), Fail> {
    let mut slots = [Happening::default(); 64];
    let mut log = SlotList::new(&mut slots);
    let mut group = Group::open(halving(1, 10)?, pair(GroupKind::Closed)?);
    assert_eq!(rt; number(group.crash(&mut log, 0), Refusal::number), 0);
    for answer in [0, 10] {
        assert_eq!(rt;
            number(group.advance(&mut log, u32::MAX), Refusal::number),
            answer
        );
        assert_eq!(rt; group.clock(), 4_000_000_000);
    }
    assert_eq!(rt; party_stop(&group), Some(28));
    Ok(())
}
