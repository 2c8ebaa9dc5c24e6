// Composes the text schedule on standard input, and writes the order file to standard output.
#![tactic(auto)]

use commandline::front::{read_input, read_request, tell_failure, tell_help, tell_usage};
use commandline::request::Request;
use orders::order::{ORDER_SIZE, Order};
use orders::start::START_SIZE;
use schedule::complaint::Complaint;
use schedule::compose::compose;
use schedule::map::RecordLines;
use schedule::misfit::find_misfit;
use schedule::misfit_notice::misfit_notice;
use schedule::notice::notice;
use std::alloc::AllocError;
use std::io;
use std::io::{BufWriter, Write};
use std::process::ExitCode;

// A longer text is refused.
const TEXT_BYTES: usize = 1_048_576;

// As many as `runfile` reads.
const FILE_BYTES: usize = 65_536;

// As many as a file has room for.
const ORDER_SLOTS: usize = (FILE_BYTES - START_SIZE) / ORDER_SIZE;

const USAGE: &str = "usage: compose [--map | --help] < SCHEDULE.txt > FILE.orders";

const MEANING: &str =
    "Writes the order file of the text schedule on standard input. With --map it writes
a line for each order in its place: the order's place, from 0, and the number of its
line in the text, from 1. What is wrong with a text is told on standard error, and the
status is 1.";

const TOO_LONG: &[u8] = b"refused number 12: the text has more than 1,048,576 bytes\n";

// What is written of a text that composes.
#[derive(Clone, Copy, Debug, PartialEq, Eq)]
enum Output {
    OrderFile,
    Map,
}

// Why nothing was written, where it is not the text's fault.
#[derive(Debug, Drop)]
enum Failure {
    Memory,
    Device(io::Error),
}

impl From<AllocError> for Failure {
    fn from(_error: AllocError) -> Failure {
        Failure::Memory
    }
}

impl From<io::Error> for Failure {
    fn from(error: io::Error) -> Failure {
        Failure::Device(error)
    }
}

// Where the complaint is about a word, a second line tells the word and what is due in its place.
fn tell_complaint(rt: &HostRuntime, text: &[u8], complaint: Complaint) -> io::Result<ExitCode> {
    let status = tell_failure(rt, notice(complaint).as_slice())?;
    // looking for the word goes over the text anew, which no other complaint needs
    if !complaint.cause.is_about_word() {
        return Ok(status);
    }
    if let Some(misfit) = find_misfit(text, complaint.line) {
        rt.stderr().write_all(misfit_notice(misfit).as_slice())?;
    }
    Ok(status)
}

// A line for each order: its place, and the number of its line. The first line with words is the
// start's.
fn write_map(rt: &HostRuntime, text: &[u8]) -> Result<(), Failure> {
    let mut out = BufWriter::new(rt.alloc(), io::writer(rt))?;
    for (place, line) in (0..ORDER_SLOTS).zip(RecordLines::new(text).skip(1)) {
        writeln!(out, "{place} {line}")?;
    }
    Ok(out.flush()?)
}

fn write_orders(rt: &HostRuntime, text: &[u8], output: Output) -> Result<ExitCode, Failure> {
    if text.len() > TEXT_BYTES {
        return Ok(tell_failure(rt, TOO_LONG)?);
    }
    let heap = rt.alloc();
    let mut orders = vec![in heap; Order::default(); ORDER_SLOTS]?;
    let mut file = vec![in heap; 0u8; FILE_BYTES]?;
    let size = match compose(text, orders.as_mut_slice(), file.as_mut_slice()) {
        Ok(size) => size,
        Err(complaint) => return Ok(tell_complaint(rt, text, complaint)?),
    };
    match output {
        Output::OrderFile => rt.stdout().write_all(&file.as_slice()[..size])?,
        Output::Map => write_map(rt, text)?,
    }
    Ok(ExitCode::SUCCESS)
}

// At a terminal nothing is read.
fn compose_input(rt: &HostRuntime, output: Output) -> Result<ExitCode, Failure> {
    match read_input(rt, TEXT_BYTES as u64 + 1)? {
        Some(text) => write_orders(rt, text.as_slice(), output),
        None => Ok(tell_usage(rt, USAGE)?),
    }
}

fn main(rt: HostRuntime) -> Result<ExitCode, Failure> {
    match read_request(&rt)? {
        Request::Plain => compose_input(&rt, Output::OrderFile),
        Request::Map => compose_input(&rt, Output::Map),
        Request::Help => Ok(tell_help(&rt, USAGE, MEANING)?),
        Request::Demo | Request::Unknown => Ok(tell_usage(&rt, USAGE)?),
    }
}
