// Elements that open and close, written into lent bytes as far as they fit; and, apart from that,
// what a reader sees in the bytes of an XML file, found with no knowledge of who wrote them.
#![tactic(auto)]

pub mod example;
pub mod output;
