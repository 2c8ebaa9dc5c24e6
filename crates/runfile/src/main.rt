// Plays the order file on standard input, and prints its run as a graph file with the notices
// behind it.
#![tactic(auto)]

use commandline::front::{read_input, read_request, tell_failure, tell_help, tell_usage};
use commandline::request::Request;
use orders::order::Order;
use player::program::run_file;
use player::sizes::{INPUT_BYTES, LOG_SLOTS, ORDER_SLOTS, OUTPUT_BYTES};
use protocol::happening::Happening;
use std::io;
use std::io::Write;
use std::process::ExitCode;

const USAGE: &str = "usage: runfile [--help] < FILE.orders > RUN.graphml";

const MEANING: &str =
    "Plays the order file on standard input, as compose writes it, and prints its run as
nested GraphML. A file that cannot be played is told in one line, on standard
output and on standard error, and the status is 1.";

// Where no file was made, its one line goes to standard error too, and the status is 1.
fn play(rt: &HostRuntime, input: &[u8]) -> io::Result<ExitCode> {
    let heap = rt.alloc();
    let mut orders = vec![in heap; Order::default(); ORDER_SLOTS]?;
    let mut log = vec![in heap; Happening::default(); LOG_SLOTS]?;
    let mut out = vec![in heap; 0u8; OUTPUT_BYTES]?;
    let printed = run_file(
        input,
        orders.as_mut_slice(),
        log.as_mut_slice(),
        out.as_mut_slice(),
    );
    let mut stdout = rt.stdout();
    stdout.write_all(&out.as_slice()[..printed.file_bytes])?;
    stdout.write_all(printed.notices.as_slice())?;
    if printed.file_bytes == 0 {
        return tell_failure(rt, printed.notices.as_slice());
    }
    Ok(ExitCode::SUCCESS)
}

fn main(rt: HostRuntime) -> io::Result<ExitCode> {
    match read_request(&rt)? {
        Request::Plain => match read_input(&rt, INPUT_BYTES)? {
            Some(input) => play(&rt, input.as_slice()),
            None => tell_usage(&rt, USAGE),
        },
        Request::Help => tell_help(&rt, USAGE, MEANING),
        Request::Map | Request::Demo | Request::Unknown => tell_usage(&rt, USAGE),
    }
}
