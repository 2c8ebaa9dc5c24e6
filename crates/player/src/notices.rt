// The lines that tell of a file what its run does not show.
ghost use Rattle.std.specs.Prelude.{◌≡◌, ◌≤◌, ◌++◌, length};
ghost use Rattle.text.specs.Lines.{padded_text};
ghost use Rattle.player.specs.Playing.{fault_number, stop_told};
ghost use Rattle.player.specs.Example.{NoticesByHand};
ghost use Rattle.player.specs.Notices.{
  refused_line,
  cut_line,
  stopped_line,
  stop_line,
  notice_lines,
};

use crate::play::PlayStop;
use text::Line;
use text::line_bytes::LineBytes;

/// A file whose orders were played, to their end or to a stop, and whose run was exported, whole or
/// cut.
#[derive(Clone, Copy, Debug, PartialEq, Eq)]
pub struct PlayedFile {
    pub cut: bool,
    pub end: Result<(), PlayStop>,
}

/// A file that was refused: the byte at which the refused record begins, 0 where it is no record,
/// and the number of the question that was answered no.
#[derive(Clone, Copy, Debug, PartialEq, Eq)]
pub struct RefusedFile {
    pub byte: usize,
    pub number: u8,
}

/// The lines that tell of a file what its run does not show, each ended by a line feed. There are
/// none for a file that was played to its end and exported whole.
pub fn notices(outcome: Result<PlayedFile, RefusedFile>) -> LineBytes
    ensures bytes { result.bytes ≡ padded_text (notice_lines outcome) }
    ensures len { result.len ≡ length (notice_lines outcome) }
    ensures within { result.len ≤ 128 }
    ensures by_hand { NoticesByHand }
{
    notice_lines(outcome).into_bytes()
}

fn notice_lines(outcome: Result<PlayedFile, RefusedFile>) -> Line
    ensures { result ≡ notice_lines outcome }
{
    match outcome {
        Ok(file) => told(file),
        Err(file) => refused_line(file),
    }
}

fn refused_line(file: RefusedFile) -> Line
    ensures { result ≡ refused_line file.byte file.number }
{
    let mut line = Line::new();
    line.add(b"refused byte ");
    line.number(file.byte as u64);
    line.add(b" number ");
    line.number(file.number as u64);
    line.add(b"\n");
    line
}

fn told(file: PlayedFile) -> Line
    ensures { result ≡ cut_line file.cut ++ stop_line (stop_told file.end) }
{
    let mut lines = told_cut(file.cut);
    if let Err(stop) = file.end {
        tell_stop(&mut lines, stop);
    }
    lines
}

fn told_cut(cut: bool) -> Line
    ensures { result ≡ cut_line cut }
{
    let mut line = Line::new();
    if cut {
        line.add(b"<!-- cut -->\n");
    }
    line
}

fn tell_stop(lines: &mut Line, stop: PlayStop)
    requires { length lines.old ≤ 13 }
    ensures { lines.new ≡ lines.old ++ stopped_line stop.order (fault_number stop.fault) }
{
    lines.add(b"<!-- refused order ");
    lines.number(stop.order as u64);
    lines.add(b" number ");
    lines.number(stop.fault.number() as u64);
    lines.add(b" -->\n");
}
