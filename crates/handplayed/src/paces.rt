use crate::play::{halving, limits, number};
use pace::Pace;
use pace::cap::Cap;
use pace::listed::Listed;
use pace::refusal::Refusal;
use pace::total::total;
use pace::two_phase::TwoPhase;
use std::process::Abort;
use std::test::Fail;

fn check_waits<P: Pace>(rt: &impl Abort, pace: &P, waits: &[u32]) {
    assert_eq!(rt; pace.rounds() as usize, waits.len());
    for (k, wait) in (0..pace.rounds()).zip(waits) {
        assert_eq!(rt; pace.wait(k), Some(*wait));
    }
    assert_eq!(rt; pace.wait(pace.rounds()), None);
}

#[test]
fn halving_halves_down_to_tmin(rt: HostRuntime) -> Result<(), Fail> {
    check_waits(&rt, &halving(1, 10)?, &[10, 5, 2, 1]);
    check_waits(&rt, &halving(5, 10)?, &[10, 5]);
    Ok(())
}

#[test]
fn two_phase_capped_at_ten(rt: HostRuntime) -> Result<(), Fail> {
    let mut pace = Cap::new(TwoPhase::new(limits(75, 7200)?));
    assert_eq!(rt; number(pace.set(10), Refusal::number), 0);
    check_waits(&rt, &pace, &[7200, 75, 75, 75, 75, 75, 75, 75, 75, 75]);
    assert_eq!(rt; total(&pace), 7875);
    Ok(())
}

#[test]
fn listed_takes_only_lawful_waits(rt: HostRuntime) -> Result<(), Fail> {
    let mut pace = Listed::new(limits(4, 10)?);
    assert_eq!(rt; number(pace.set(&[10, 10, 4]), Refusal::number), 0);
    assert_eq!(rt; number(pace.set(&[10, 3]), Refusal::number), 4);
    assert_eq!(rt; number(pace.set(&[9]), Refusal::number), 3);
    assert_eq!(rt; number(pace.set(&[10; 65]), Refusal::number), 2);
    check_waits(&rt, &pace, &[10, 10, 4]);
    Ok(())
}

#[test]
fn cap_over_a_cap_gives_the_fewer_waits(rt: HostRuntime) -> Result<(), Fail> {
    let mut inner = Cap::new(halving(1, 10)?);
    assert_eq!(rt; number(inner.set(3), Refusal::number), 0);
    let mut outer = Cap::new(inner);
    check_waits(&rt, &outer, &[10, 5, 2]);
    assert_eq!(rt; number(outer.set(2), Refusal::number), 0);
    assert_eq!(rt; number(outer.set(65), Refusal::number), 2);
    assert_eq!(rt; number(outer.set(0), Refusal::number), 2);
    check_waits(&rt, &outer, &[10, 5]);
    Ok(())
}
