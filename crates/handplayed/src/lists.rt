use slots::SlotList;
use slots::timed::Timed;
use std::process::Abort;
use std::test::Fail;

#[derive(Clone, Copy)]
struct Mark {
    tick: u32,
}

impl Timed for Mark {
    ghost time = { λ m. m.tick };

    fn tick(&self) -> u32 {
        self.tick
    }
}

// Two records in three slots, and one that comes too early.
fn append_two(rt: &impl Abort, slots: &mut [Mark]) {
    let mut log = SlotList::new(slots);
    assert!(rt; log.append(Mark { tick: 5 }).is_ok());
    assert!(rt; log.append(Mark { tick: 4 }).is_err());
    assert!(rt; log.append(Mark { tick: 7 }).is_ok());
    assert_eq!(rt; log.first_at_or_after(6), Some(1));
    assert_eq!(rt; log.first_at_or_after(8), None);
    assert_eq!(rt; log.len(), 2);
    assert_eq!(rt; log.free(), 1);
    let (lent, records) = log.into_slots();
    assert_eq!(rt; lent.len(), 3);
    assert_eq!(rt; records, 2);
}

#[test]
fn array_and_vec_hold_what_was_appended(rt: HostRuntime) -> Result<(), Fail> {
    let mut array = [Mark { tick: 0 }; 3];
    append_two(&rt, &mut array);
    assert_eq!(rt; array[0].tick, 5);
    assert_eq!(rt; array[1].tick, 7);
    assert_eq!(rt; array[2].tick, 0);
    let mut vec = vec![in rt.alloc(); Mark { tick: 0 }; 3]?;
    append_two(&rt, vec.as_mut_slice());
    assert!(rt; vec.len() == 3);
    assert_eq!(rt; vec[0].tick, 5);
    assert_eq!(rt; vec[1].tick, 7);
    assert_eq!(rt; vec[2].tick, 0);
    Ok(())
}
