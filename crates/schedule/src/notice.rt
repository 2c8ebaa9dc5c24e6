// A complaint in words.
ghost use Rattle.std.specs.Prelude.{◌≡◌, ◌≤◌, length};
ghost use Rattle.text.specs.Lines.{padded_text};
ghost use Rattle.schedule.specs.Notices.{cause_words, notice_line};

use crate::complaint::{Cause, Complaint};
use text::Line;
use text::line_bytes::LineBytes;

/// The line that tells a planner what is wrong, and where.
pub fn notice(complaint: Complaint) -> LineBytes
    ensures bytes { result.bytes ≡ padded_text (notice_line complaint) }
    ensures len { result.len ≡ length (notice_line complaint) }
    ensures within { result.len ≤ 128 }
{
    notice_line(complaint).into_bytes()
}

fn notice_line(complaint: Complaint) -> Line
    ensures { result ≡ notice_line complaint }
{
    let mut line = Line::new();
    line.add(b"refused line ");
    line.number(complaint.line as u64);
    line.add(b" number ");
    line.number(complaint.cause.number() as u64);
    line.add(b": ");
    line.add(cause_words(complaint.cause));
    line.add(b"\n");
    line
}

fn cause_words(cause: Cause) -> &'static [u8]
    ensures { result.now ≡ cause_words cause }
{
    match cause {
        Cause::MissingWord => b"a word is missing",
        Cause::UnknownWord => b"a word is not known here",
        Cause::NotANumber => b"a number has a byte that is no digit",
        Cause::NumberTooLarge => b"a number is too large",
        Cause::WordTooMany => b"a word too many",
        Cause::EarlierTick => b"the tick is before that of the order before",
        Cause::NoSlot => b"more orders than there is room for",
        Cause::NoStart => b"no start",
        Cause::NoRoom => b"the order file is longer than the output",
    }
}
