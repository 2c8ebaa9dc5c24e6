// A line under construction.
ghost use Rattle.std.specs.Prelude.{◌≡◌, ◌≤◌, [], length, decimal};
ghost use Rattle.text.specs.Lines.{line_with, padded_text};
ghost use Rattle.text.specs.Numeral.{Writes};

use super::bytes::put;
use super::decimal::digits;
use super::line_bytes::{LineBytes, SIZE};
use arrayvec::ArrayVec;
use std::marker::Model;

/// A line that grows by texts and numbers, each of which is added whole or not at all. It has room
/// for 128 bytes. A contract sees its text.
#[derive(Drop)]
pub struct Line {
    text: ArrayVec<u8, SIZE>,
}

impl Model for Line {
    ghost use Rattle.std.specs.Prelude.{ℕ, List};

    ghost Value = { List ℕ };

    ghost view = { λ l. l.text.items };
}

impl Line {
    /// An empty line.
    pub fn new() -> Line
        ensures { result ≡ [] }
    {
        Line {
            text: ArrayVec::new(),
        }
    }

    /// The text so far.
    pub fn as_slice(&self) -> &[u8]
        ensures text { result.now ≡ self.now }
        ensures within { length self.now ≤ 128 }
    {
        self.text.as_slice()
    }

    /// All of its bytes, those past the text 0, and the text's length.
    #[tactic(auto, using(crate::proofs::Lines::padded_front))]
    pub fn into_bytes(self) -> LineBytes
        ensures bytes { result.bytes ≡ padded_text self }
        ensures len { result.len ≡ length self }
        ensures within { result.len ≤ 128 }
    {
        let mut bytes = [0; SIZE];
        let len = put(&mut bytes, 0, self.as_slice());
        LineBytes { bytes, len }
    }

    /// Adds a text where it fits, and changes nothing where it does not.
    #[tactic(auto, unfolding(crate::specs::Lines::line_with))]
    pub fn add(&mut self, more: &[u8])
        ensures { self.new ≡ line_with self.old more.now }
    {
        let _ = self.text.try_extend_from_slice(more);
    }

    /// Adds a number in decimal where it fits, and changes nothing where it does not.
    #[tactic(auto, using(crate::proofs::Numbers::writes))]
    pub fn number(&mut self, n: u64)
        ensures line { self.new ≡ line_with self.old (decimal n) }
        ensures writes { Writes n (decimal n) }
    {
        self.add(digits(n).as_slice());
    }
}
