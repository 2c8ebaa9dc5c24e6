// What every program does at its standard streams before and beside its work.
use crate::request::{Request, request_in};
use std::io::{IsTerminal, Read, Write};
use std::process::ExitCode;
use std::{env, io};

/// The status of a program whose request is not known, or which has no input.
pub const MISUSED: u8 = 2;

/// The request of this run. Words that are not UTF-8 are no request that is known.
pub fn read_request(rt: &HostRuntime) -> io::Result<Request> {
    match env::args(rt) {
        Ok(args) => {
            let words: Vec<String> = args.skip(1).collect(rt.alloc())?;
            Ok(request_in(words.as_slice()))
        }
        Err(error) if error.kind() == io::ErrorKind::InvalidData => Ok(Request::Unknown),
        Err(error) => Err(error),
    }
}

/// The first `most` bytes of standard input; none where that is a terminal, at which nobody types
/// a file.
pub fn read_input(rt: &HostRuntime, most: u64) -> io::Result<Option<Vec<u8>>> {
    if rt.stdin().is_terminal() {
        return Ok(None);
    }
    let mut input = Vec::new(rt.alloc());
    rt.stdin().take(most).read_to_end(&mut input)?;
    Ok(Some(input))
}

/// Writes the usage and what it means to standard output. The status is 0.
pub fn tell_help(rt: &HostRuntime, usage: &str, meaning: &str) -> io::Result<ExitCode> {
    println!(rt; "{usage}")?;
    println!(rt; "{meaning}")?;
    Ok(ExitCode::SUCCESS)
}

/// Writes the usage to standard error. The status is 2.
pub fn tell_usage(rt: &HostRuntime, usage: &str) -> io::Result<ExitCode> {
    eprintln!(rt; "{usage}")?;
    Ok(ExitCode::from(MISUSED))
}

/// Writes a line, which brings its own line end, to standard error. The status is 1.
pub fn tell_failure(rt: &HostRuntime, line: &[u8]) -> io::Result<ExitCode> {
    rt.stderr().write_all(line)?;
    Ok(ExitCode::FAILURE)
}
