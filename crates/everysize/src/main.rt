// For tests: what `runfile` would print of the order file on standard input, at every size of its
// output from the least that holds the frame to three bytes more than the whole file needs.
#![tactic(auto)]

use graphml::run::FRAME;
use orders::order::Order;
use player::program::{Printed, run_file};
use player::sizes::{INPUT_BYTES, LOG_SLOTS, ORDER_SLOTS, OUTPUT_BYTES};
use protocol::happening::Happening;
use std::io;
use std::io::{Read, Write};

// The file that is played, and what is lent to play it.
#[derive(Drop)]
struct Lent {
    input: Vec<u8>,
    orders: Vec<Order>,
    log: Vec<Happening>,
    out: Vec<u8>,
}

impl Lent {
    fn read(rt: &HostRuntime) -> io::Result<Lent> {
        let heap = rt.alloc();
        let mut input = Vec::new(heap);
        rt.stdin().take(INPUT_BYTES).read_to_end(&mut input)?;
        Ok(Lent {
            input,
            orders: vec![in heap; Order::default(); ORDER_SLOTS]?,
            log: vec![in heap; Happening::default(); LOG_SLOTS]?,
            out: vec![in heap; 0u8; OUTPUT_BYTES]?,
        })
    }

    // Plays it into an output of so many bytes, if that many are lent.
    fn play(&mut self, size: usize) -> Option<Printed> {
        let room = self.out.as_mut_slice().get_mut(0..size)?;
        Some(run_file(
            self.input.as_slice(),
            self.orders.as_mut_slice(),
            self.log.as_mut_slice(),
            room,
        ))
    }

    // Prints the size, how many bytes follow, and then what `runfile` prints at that size.
    fn tell(&self, rt: &HostRuntime, size: usize, printed: &Printed) -> io::Result<()> {
        let file = self
            .out
            .as_slice()
            .get(0..printed.file_bytes)
            .unwrap_or(&[]);
        let notices = printed.notices.as_slice();
        let following = file.len().saturating_add(notices.len());
        println!(rt; "{size} {following}")?;
        rt.stdout().write_all(file)?;
        rt.stdout().write_all(notices)
    }
}

fn main(rt: HostRuntime) -> io::Result<()> {
    let mut lent = Lent::read(&rt)?;
    let whole = lent
        .play(OUTPUT_BYTES)
        .map_or(0, |printed| printed.file_bytes);
    if whole == 0 {
        return Ok(());
    }
    for size in FRAME..whole.saturating_add(4) {
        if let Some(printed) = lent.play(size) {
            lent.tell(&rt, size, &printed)?;
        }
    }
    Ok(())
}
