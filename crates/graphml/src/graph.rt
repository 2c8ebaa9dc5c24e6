// The parties with their happenings, and then the edges, as far as they fit.
ghost use Rattle.std.specs.Prelude.{◌≡◌, is_ok};
ghost use Rattle.graphml.specs.Body.{happenings_of, edges_from, is_arrived, party_then, body};
ghost use Rattle.graphml.specs.Writer.{writer, Sound, after_fitting, all_fits_in, NumbersFit};
ghost use Rattle.markup.specs.Forests.{none};

use super::element::{PartyGraph, RunGraph};
use super::output::RunOutput;
use markup::output::Cut;
use protocol::happening::{Happening, HappeningKind};

// The happenings of a party, in log order, up to the first that does not fit.
fn write_happenings(
    out: &mut RunOutput,
    graph: &PartyGraph,
    log: &[Happening],
    party: u16,
) -> Result<(), Cut>
    requires { Sound (writer out.old) 37 }
    ensures whole { is_ok result ≡ all_fits_in (writer out.old) (happenings_of party 0 log.now) }
    ensures after { writer out.new
        ≡ after_fitting (writer out.old) (happenings_of party 0 log.now) }
    ensures numbers { NumbersFit (writer out.old) (happenings_of party 0 log.now) }
    ensures sound { Sound (writer out.new) 37 }
{
    for (place, happening) in log.iter().enumerate() {
        if u16::from(happening.owner) == party {
            graph.happening(out, place, happening)?;
        }
    }
    Ok(())
}

// A party with what is inside it, as far as it fits; the outer token comes back either way.
fn write_party(
    out: &mut RunOutput,
    run: RunGraph,
    log: &[Happening],
    party: u16,
) -> Result<RunGraph, RunGraph>
    requires { Sound (writer out.old) 20 }
    ensures whole { is_ok result ≡ all_fits_in (writer out.old) (party_then log.now party none) }
    ensures after { writer out.new
        ≡ after_fitting (writer out.old) (party_then log.now party none) }
    ensures numbers { NumbersFit (writer out.old) (party_then log.now party none) }
    ensures sound { Sound (writer out.new) 20 }
{
    let node = run.open_node(out, party)?;
    let graph = match node.open_graph(out, party) {
        Ok(graph) => graph,
        Err(node) => return Err(node.close(out)),
    };
    let written = write_happenings(out, &graph, log, party);
    let node = graph.close(out);
    let run = node.close(out);
    match written {
        Ok(()) => Ok(run),
        Err(Cut) => Err(run),
    }
}

// An edge for each arrival, in log order, up to the first that does not fit.
fn write_edges(out: &mut RunOutput, run: &RunGraph, log: &[Happening]) -> Result<(), Cut>
    requires { Sound (writer out.old) 20 }
    ensures whole { is_ok result ≡ all_fits_in (writer out.old) (edges_from 0 log.now) }
    ensures after { writer out.new ≡ after_fitting (writer out.old) (edges_from 0 log.now) }
    ensures numbers { NumbersFit (writer out.old) (edges_from 0 log.now) }
    ensures sound { Sound (writer out.new) 20 }
{
    for (place, happening) in log.iter().enumerate() {
        if is_arrived(happening.kind) {
            run.edge(out, happening.link, place)?;
        }
    }
    Ok(())
}

fn is_arrived(kind: HappeningKind) -> bool
    ensures { result ≡ is_arrived kind }
{
    kind == HappeningKind::Arrived
}

// The parties 0 to `parties`, and then the edges, as far as they fit; the token comes back either
// way.
pub(crate) fn write_body(
    out: &mut RunOutput,
    mut run: RunGraph,
    log: &[Happening],
    parties: u8,
) -> Result<RunGraph, RunGraph>
    requires { Sound (writer out.old) 20 }
    ensures whole { is_ok result ≡ all_fits_in (writer out.old) (body log.now parties) }
    ensures after { writer out.new ≡ after_fitting (writer out.old) (body log.now parties) }
    ensures numbers { NumbersFit (writer out.old) (body log.now parties) }
    ensures sound { Sound (writer out.new) 20 }
{
    for party in 0..=u16::from(parties) {
        run = write_party(out, run, log, party)?;
    }
    match write_edges(out, &run, log) {
        Ok(()) => Ok(run),
        Err(Cut) => Err(run),
    }
}
