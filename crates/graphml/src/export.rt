// The run of a group, out of its log.
ghost use Rattle.std.specs.Prelude.{◌≡◌, ◌-◌, true, false, length, take, IfOk};
ghost use Rattle.slots.specs.Slots.{items};
ghost use Rattle.protocol.specs.Views.{state_of};
ghost use Rattle.graphml.specs.Body.{body};
ghost use Rattle.markup.specs.Closing.{Closes};
ghost use Rattle.graphml.specs.Log.{ShowsTheLog};
ghost use Rattle.graphml.specs.Answer.{frame_size, in_frame};
ghost use Rattle.graphml.specs.Export.{export_answer, export_bytes};
ghost use Rattle.markup.specs.Cut.{EndsAt};
ghost use Rattle.graphml.specs.Elements.{spelling};

use super::answer::{Exported, Refusal};
use super::run::write_run;
use group::Group;
use pace::Pace;
use protocol::happening::Happening;
use slots::SlotList;

/// Writes the file of the group's run as GraphML, from the output's first byte on. An output too
/// short for all of it gets the elements that fit, in file order, each of them closed.
///
/// Refused are a log that the group did not write, and an output with no room for the frame; the
/// output is then as it was.
pub fn export<P: Pace>(
    group: &Group<P>,
    log: &SlotList<'_, Happening>,
    out: &mut [u8],
) -> Result<Exported, Refusal>
    ensures answer { result
        ≡ export_answer (state_of group.now.table log.now) group.now.plan.n (length out.old) }
    ensures bytes { out.new
        ≡ export_bytes (state_of group.now.table log.now) group.now.plan.n out.old }
    ensures whole { IfOk result (λ x. x.whole ≡ true →
        take x.bytes out.new ≡ in_frame (body (items log.now) group.now.plan.n)) }
    ensures cut { IfOk result (λ x. x.whole ≡ false →
        EndsAt spelling (length out.old - frame_size) (body (items log.now) group.now.plan.n)) }
    // what a reader sees who has the written bytes alone
    ensures closes { IfOk result (λ x. Closes (take x.bytes out.new)) }
    ensures shown { IfOk result (λ x.
        ShowsTheLog group.now.plan.n (items log.now) x (take x.bytes out.new)) }
{
    if !group.wrote(log) {
        return Err(Refusal::LogDiffers);
    }
    write_run(log.as_slice(), group.plan().parties(), out)
}
