// One token for each open element. Only the closing of its element spends it, and an inner token
// holds the outer one until it is closed: a token cannot be let go, nor the outer element closed
// under an open inner one. The output stands beside the tokens: were it in them, a caller would not
// know what the lent bytes end as.
ghost use Rattle.std.specs.Prelude.{◌≡◌, is_ok, if◌then◌else◌};
ghost use Rattle.graphml.specs.Answer.{frame_size};
ghost use Rattle.graphml.specs.Texts.{head, tail, node_line, node_end, graph_line, graph_end};
ghost use Rattle.graphml.specs.Elements.{happened, edge};
ghost use Rattle.graphml.specs.Writer.{
  writer,
  Sound,
  after_text,
  after_opening,
  after_fitting,
  all_fits_in,
  NumbersFit,
};
ghost use Rattle.markup.specs.Held.{has_room};
ghost use Rattle.markup.specs.Forests.{one};

use super::lines;
use super::output::{RunOutput, begin, write};
use markup::output::Cut;
use protocol::happening::Happening;

const HEAD: &[u8] =
    b"<?xml version=\"1.0\" encoding=\"UTF-8\"?>\n<graphml xmlns=\"http://graphml.graphdrawing.org/xmlns\">\n<key id=\"t\" for=\"node\" attr.name=\"tick\" attr.type=\"long\"/>\n<key id=\"k\" for=\"node\" attr.name=\"what\" attr.type=\"string\"/>\n<graph id=\"run\" edgedefault=\"directed\">\n";

const TAIL: &[u8] = b"</graph>\n</graphml>\n";

// The graph of the whole run is open: 20 bytes are set aside.
pub(crate) struct RunGraph {
    open: (),
}

// A party's node is open: 8 bytes more.
pub(crate) struct PartyNode {
    outer: RunGraph,
}

// A party's inner graph is open: 9 bytes more.
pub(crate) struct PartyGraph {
    outer: PartyNode,
}

impl RunGraph {
    // The frame's first lines, with bytes set aside for its last ones.
    #[tactic(auto, unfolding(crate::specs::Texts::head))]
    pub(crate) fn open(out: &mut RunOutput) -> RunGraph
        requires { Sound (writer out.old) frame_size }
        ensures after { writer out.new ≡ after_text (writer out.old) head }
        ensures sound { Sound (writer out.new) 20 }
    {
        write(out, HEAD);
        RunGraph { open: () }
    }

    // A party's node, or the token back where it does not fit.
    pub(crate) fn open_node(self, out: &mut RunOutput, party: u16) -> Result<PartyNode, RunGraph>
        requires { Sound (writer out.old) 20 }
        ensures room { is_ok result ≡ has_room (writer out.old).out (node_line party) 8 }
        ensures after { writer out.new ≡ (if is_ok result
            then after_opening (writer out.old) (node_line party) 8 else writer out.old) }
        ensures sound { Sound (writer out.new) (if is_ok result then 28 else 20) }
    {
        match begin(out, lines::node_line(party).as_slice(), 8) {
            Ok(()) => Ok(PartyNode { outer: self }),
            Err(Cut) => Err(self),
        }
    }

    // An edge, if it fits.
    pub(crate) fn edge(&self, out: &mut RunOutput, source: usize, target: usize) -> Result<(), Cut>
        requires { Sound (writer out.old) 20 }
        ensures whole { is_ok result ≡ all_fits_in (writer out.old) (one (edge source target)) }
        ensures after { writer out.new ≡ after_fitting (writer out.old) (one (edge source target)) }
        ensures numbers { NumbersFit (writer out.old) (one (edge source target)) }
        ensures sound { Sound (writer out.new) 20 }
    {
        begin(out, lines::edge_line(source, target).as_slice(), 0)?;
        out.counts.edges += 1;
        Ok(())
    }

    #[tactic(auto, unfolding(crate::specs::Texts::tail))]
    pub(crate) fn close(self, out: &mut RunOutput)
        requires { Sound (writer out.old) 20 }
        ensures { writer out.new ≡ after_text (writer out.old) tail }
    {
        let RunGraph { open: () } = self;
        write(out, TAIL);
    }
}

impl PartyNode {
    // The party's inner graph, or the token back where it does not fit.
    pub(crate) fn open_graph(self, out: &mut RunOutput, party: u16) -> Result<PartyGraph, PartyNode>
        requires { Sound (writer out.old) 28 }
        ensures room { is_ok result ≡ has_room (writer out.old).out (graph_line party) 9 }
        ensures after { writer out.new ≡ (if is_ok result
            then after_opening (writer out.old) (graph_line party) 9 else writer out.old) }
        ensures sound { Sound (writer out.new) (if is_ok result then 37 else 28) }
    {
        match begin(out, lines::graph_line(party).as_slice(), 9) {
            Ok(()) => Ok(PartyGraph { outer: self }),
            Err(Cut) => Err(self),
        }
    }

    pub(crate) fn close(self, out: &mut RunOutput) -> RunGraph
        requires { Sound (writer out.old) 28 }
        ensures after { writer out.new ≡ after_text (writer out.old) node_end }
        ensures sound { Sound (writer out.new) 20 }
    {
        let PartyNode { outer } = self;
        write(out, b"</node>\n");
        outer
    }
}

impl PartyGraph {
    // A happening, if it fits.
    pub(crate) fn happening(
        &self,
        out: &mut RunOutput,
        place: usize,
        happening: &Happening,
    ) -> Result<(), Cut>
        requires { Sound (writer out.old) 37 }
        ensures whole { is_ok result
            ≡ all_fits_in (writer out.old) (one (happened place happening.now)) }
        ensures after { writer out.new
            ≡ after_fitting (writer out.old) (one (happened place happening.now)) }
        ensures numbers { NumbersFit (writer out.old) (one (happened place happening.now)) }
        ensures sound { Sound (writer out.new) 37 }
    {
        begin(out, lines::happening_line(place, happening).as_slice(), 0)?;
        out.counts.happenings += 1;
        Ok(())
    }

    pub(crate) fn close(self, out: &mut RunOutput) -> PartyNode
        requires { Sound (writer out.old) 37 }
        ensures after { writer out.new ≡ after_text (writer out.old) graph_end }
        ensures sound { Sound (writer out.new) 28 }
    {
        let PartyGraph { outer } = self;
        write(out, b"</graph>\n");
        outer
    }
}
