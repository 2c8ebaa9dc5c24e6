// The lines of the file, each ended by a line feed.
ghost use Rattle.std.specs.Prelude.{◌≡◌, ◌^◌, ◌<◌};
ghost use Rattle.graphml.specs.Texts.{node_line, graph_line, happening_line, edge_line};

use protocol::happening::Happening;
use text::Line;

pub(crate) fn node_line(party: u16) -> Line
    ensures { result ≡ node_line party }
{
    let mut l = Line::new();
    l.add(b"<node id=\"p");
    l.number(party as u64);
    l.add(b"\">\n");
    l
}

pub(crate) fn graph_line(party: u16) -> Line
    ensures { result ≡ graph_line party }
{
    let mut l = Line::new();
    l.add(b"<graph id=\"p");
    l.number(party as u64);
    l.add(b":\" edgedefault=\"directed\">\n");
    l
}

pub(crate) fn happening_line(place: usize, h: &Happening) -> Line
    ensures line { result ≡ happening_line place h.now }
    ensures tick { h.now.tick < 2 ^ 64 }
{
    let mut l = Line::new();
    l.add(b"<node id=\"h");
    l.number(place as u64);
    l.add(b"\"><data key=\"t\">");
    l.number(h.tick as u64);
    l.add(b"</data><data key=\"k\">");
    l.add(h.kind.word().as_bytes());
    l.add(b"</data></node>\n");
    l
}

pub(crate) fn edge_line(source: usize, target: usize) -> Line
    ensures { result ≡ edge_line source target }
{
    let mut l = Line::new();
    l.add(b"<edge source=\"h");
    l.number(source as u64);
    l.add(b"\" target=\"h");
    l.number(target as u64);
    l.add(b"\"/>\n");
    l
}
