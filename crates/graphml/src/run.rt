// A whole run, in the frame.
ghost use Rattle.std.specs.Prelude.{◌≡◌, ◌-◌, true, false, length, take, IfOk};
ghost use Rattle.graphml.specs.Body.{body};
ghost use Rattle.markup.specs.Closing.{Closes};
ghost use Rattle.graphml.specs.Log.{ShowsTheLog};
ghost use Rattle.graphml.specs.Answer.{frame_size, in_frame, run_bytes, run_answer};
ghost use Rattle.markup.specs.Cut.{EndsAt};
ghost use Rattle.graphml.specs.Elements.{spelling};

use super::answer::{Exported, Refusal};
use super::element::RunGraph;
use super::graph::write_body;
use super::output::Counts;
use markup::output::Output;
use protocol::happening::Happening;

/// The bytes of the frame, and so the least output into which a run is exported.
pub const FRAME: usize = 275;

// Writes the parties 0 to `parties` with their happenings, and an edge for each arrival, as far as
// the output has room.
pub(crate) fn write_run(log: &[Happening], parties: u8, out: &mut [u8]) -> Result<Exported, Refusal>
    ensures answer { result ≡ run_answer log.now parties (length out.old) }
    ensures bytes { out.new ≡ run_bytes log.now parties out.old }
    ensures whole { IfOk result (λ x. x.whole ≡ true →
        take x.bytes out.new ≡ in_frame (body log.now parties)) }
    ensures cut { IfOk result (λ x. x.whole ≡ false →
        EndsAt spelling (length out.old - frame_size) (body log.now parties)) }
    ensures closes { IfOk result (λ x. Closes (take x.bytes out.new)) }
    ensures shown { IfOk result (λ x. ShowsTheLog parties log.now x (take x.bytes out.new)) }
{
    let size = out.len();
    if size < FRAME {
        return Err(Refusal::ShortOutput);
    }
    let mut w = Output {
        bytes: out,
        at: 0,
        room: size - FRAME,
        counts: Counts {
            happenings: 0,
            edges: 0,
        },
    };
    let run = RunGraph::open(&mut w);
    let written = write_body(&mut w, run, log, parties);
    let whole = written.is_ok();
    let (Ok(run) | Err(run)) = written;
    run.close(&mut w);
    Ok(Exported {
        bytes: w.at,
        happenings: w.counts.happenings,
        edges: w.counts.edges,
        whole,
    })
}
