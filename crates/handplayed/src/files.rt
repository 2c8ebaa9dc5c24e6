use crate::play::*;
use graphml::answer::{Exported, Refusal};
use graphml::export::export;
use group::Group;
use protocol::call::{Call, Step};
use protocol::happening::Happening;
use protocol::kind::GroupKind;
use protocol::refusal::Refusal as CallRefusal;
use rehearsal::{Rehearsal, rehearse};
use slots::SlotList;
use std::process::Abort;
use std::test::Fail;

const EMPTY_RUN: &str = r#"<?xml version="1.0" encoding="UTF-8"?>
<graphml xmlns="http://graphml.graphdrawing.org/xmlns">
<key id="t" for="node" attr.name="tick" attr.type="long"/>
<key id="k" for="node" attr.name="what" attr.type="string"/>
<graph id="run" edgedefault="directed">
<node id="p0">
<graph id="p0:" edgedefault="directed">
</graph>
</node>
<node id="p1">
<graph id="p1:" edgedefault="directed">
</graph>
</node>
</graph>
</graphml>
"#;

// The number of a refusal, or the bytes written and whether they are the whole file: in one form,
// since the worked cases give figures.
fn figures(answer: Result<Exported, Refusal>) -> (u8, usize, bool) {
    answer.map_or_else(
        |refusal| (refusal.number(), 0, false),
        |exported| (0, exported.bytes, exported.whole),
    )
}

// The export of a closed group of one party, of pace halving 1, 10, that made no call.
fn export_empty_run(out: &mut [u8]) -> Result<(u8, usize, bool), Fail> {
    let mut slots = [Happening::default(); 1];
    let log = SlotList::new(&mut slots);
    let group = Group::open(halving(1, 10)?, pair(GroupKind::Closed)?);
    Ok(figures(export(&group, &log, out)))
}

#[test]
fn empty_run_is_whole_in_419_bytes_and_cut_in_346(rt: HostRuntime) -> Result<(), Fail> {
    let mut roomy = [7u8; 419];
    assert_eq!(rt; export_empty_run(&mut roomy)?, (0, 419, true));
    assert_eq!(rt; &roomy[..], EMPTY_RUN.as_bytes());
    let mut tight = [7u8; 346];
    assert_eq!(rt; export_empty_run(&mut tight)?, (0, 298, false));
    assert_eq!(rt; &tight[298..], &[7u8; 48][..]);
    let mut short = [7u8; 274];
    assert_eq!(rt; export_empty_run(&mut short)?, (17, 0, false));
    assert_eq!(rt; &short[..], &[7u8; 274][..]);
    Ok(())
}

// Makes the calls of a dynamic group of one party, of pace halving 1, 10: the records and the
// export.
fn rehearse_pair(
    rt: &impl Abort,
    steps: &mut [Step],
    slots: &mut [Happening],
    out: &mut [u8],
) -> Result<(usize, (u8, usize, bool)), Fail> {
    let Rehearsal {
        group,
        records,
        exported,
    } = rehearse(
        pair(GroupKind::Dynamic)?,
        halving(1, 10)?,
        steps,
        slots,
        out,
    );
    assert_eq!(rt; group.clock(), 1);
    Ok((records, figures(exported)))
}

// A call that is still to be made.
fn step(call: Call) -> Step {
    Step {
        call,
        answer: Ok(()),
    }
}

// The party asks to leave before it is in.
#[test]
fn rehearsal_puts_each_answer_beside_its_call(rt: HostRuntime) -> Result<(), Fail> {
    let mut steps = [
        step(Call::Join(1)),
        step(Call::Deliver(1, 3)),
        step(Call::Leave(1)),
        step(Call::Tick),
    ];
    let mut slots = [Happening::default(); 16];
    let mut out = [0u8; 1024];
    assert_eq!(rt;
        rehearse_pair(&rt, &mut steps, &mut slots, &mut out)?,
        (4, (0, 737, true))
    );
    let answers = steps.map(|step| number(step.answer, CallRefusal::number));
    assert_eq!(rt; answers, [0, 0, 8, 0]);
    assert_eq!(rt; slots[2].kind.word(), "arrived");
    assert_eq!(rt; slots[2].link, 1);
    Ok(())
}
