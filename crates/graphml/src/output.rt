// The output of a run, with what is counted of it.
ghost use Rattle.std.specs.Prelude.{◌≡◌, ◌+◌, ◌^◌, ◌<◌, ◌≤◌, true, length, is_ok, if◌then◌else◌};
ghost use Rattle.markup.specs.Held.{has_room};
ghost use Rattle.graphml.specs.Writer.{writer, after_text, after_opening};

use markup::output::{Cut, Output};

#[derive(Drop)]
pub(crate) struct Counts {
    pub(crate) happenings: usize,
    pub(crate) edges: usize,
}

pub(crate) type RunOutput<'a> = Output<'a, Counts>;

// Text for which bytes were set aside.
pub(crate) fn write(out: &mut RunOutput, text: &[u8])
    requires { (writer out.old).out.at + length text.now ≤ length (writer out.old).out.bytes }
    ensures { writer out.new ≡ after_text (writer out.old) text.now }
{
    out.write(text);
}

// The opening of an element, if it and the closing fit.
pub(crate) fn begin(out: &mut RunOutput, opening: &[u8], closing: usize) -> Result<(), Cut>
    requires { let o = (writer out.old).out in o.at + o.room ≤ length o.bytes }
    ensures room { is_ok result ≡ has_room (writer out.old).out opening.now closing }
    ensures after { writer out.new ≡ (if is_ok result
        then after_opening (writer out.old) opening.now closing else writer out.old) }
    ensures end { is_ok result ≡ true → (writer out.new).out.at < 2 ^ 64 }
{
    out.begin(opening, closing)
}
