// The words of one line, taken one by one.
ghost use Rattle.std.specs.Prelude.{◌≡◌, [], ◌∷◌, MatchResult, codes, drop};
ghost use Rattle.std.specs.Iterator.{YieldsFirstRef, item_count};
ghost use Rattle.schedule.specs.Cuts.{words_in, line_words};
ghost use Rattle.schedule.specs.Words.{number_word, pace_word, order_word, only};
ghost use Rattle.schedule.specs.Records.{next_word, byte_if, words_after_if, no_words};

use crate::complaint::Cause;
use crate::cut::cut;
use crate::kinds::{cap_word, order_kind, pace_kind};
use crate::number::number;
use orders::order::OrderKind;
use orders::start::PaceKind;

// What is left of a line, without its comment.
#[derive(Drop)]
pub(crate) struct Words<'a> {
    rest: &'a [u8],
}

impl<'a> Words<'a> {
    pub(crate) fn new(line: &'a [u8]) -> Words<'a>
        ensures { words_in result.rest.now ≡ line_words line.now }
    {
        let (rest, _) = cut(line, |byte| byte == b'#');
        Words { rest }
    }

    // The next word, which has to be there.
    pub(crate) fn word(&mut self) -> Result<&'a [u8], Cause>
        ensures { MatchResult result
            (λ word. words_in self.old.rest.now ≡ word.now ∷ words_in self.new.rest.now)
            (λ cause. (words_in self.old.rest.now ≡ [])
            × (words_in self.new.rest.now ≡ []) × (cause ≡ Cause.MissingWord)) }
    {
        self.next().ok_or(Cause::MissingWord)
    }

    // The next word as a number, which is `max` at most.
    #[tactic(auto, unfolding(crate::specs::Records::next_word))]
    pub(crate) fn number(&mut self, max: u32) -> Result<u32, Cause>
        ensures answer { result ≡ next_word (number_word max) (words_in self.old.rest.now) }
        ensures left { words_in self.new.rest.now ≡ drop 1 (words_in self.old.rest.now) }
    {
        number(self.word()?, max)
    }

    // The next word as a number of one byte.
    pub(crate) fn byte(&mut self) -> Result<u8, Cause>
        ensures answer { result ≡ next_word (number_word 255) (words_in self.old.rest.now) }
        ensures left { words_in self.new.rest.now ≡ drop 1 (words_in self.old.rest.now) }
    {
        Ok(self.number(255)? as u8)
    }

    // The next word as a byte where one is `wanted`; 0 where none is.
    #[tactic(auto, unfolding(crate::specs::Records::byte_if))]
    pub(crate) fn byte_if(&mut self, wanted: bool) -> Result<u8, Cause>
        ensures answer { result ≡ byte_if wanted (words_in self.old.rest.now) }
        ensures left { words_in self.new.rest.now
            ≡ words_after_if wanted (words_in self.old.rest.now) }
    {
        if wanted { self.byte() } else { Ok(0) }
    }

    // The next word as a pace.
    #[tactic(auto, unfolding(crate::specs::Records::next_word))]
    pub(crate) fn pace(&mut self) -> Result<PaceKind, Cause>
        ensures answer { result ≡ next_word pace_word (words_in self.old.rest.now) }
        ensures left { words_in self.new.rest.now ≡ drop 1 (words_in self.old.rest.now) }
    {
        pace_kind(self.word()?)
    }

    // The next word as an order's kind.
    #[tactic(auto, unfolding(crate::specs::Records::next_word))]
    pub(crate) fn order_kind(&mut self) -> Result<OrderKind, Cause>
        ensures answer { result ≡ next_word order_word (words_in self.old.rest.now) }
        ensures left { words_in self.new.rest.now ≡ drop 1 (words_in self.old.rest.now) }
    {
        order_kind(self.word()?)
    }

    // The next word, which has to be `cap`.
    #[tactic(auto, unfolding(crate::specs::Records::next_word))]
    pub(crate) fn cap(&mut self) -> Result<(), Cause>
        ensures answer { result ≡ next_word (only (codes "cap")) (words_in self.old.rest.now) }
        ensures left { words_in self.new.rest.now ≡ drop 1 (words_in self.old.rest.now) }
    {
        cap_word(self.word()?)
    }

    // No word is left.
    #[tactic(auto, unfolding(crate::specs::Records::no_words))]
    pub(crate) fn end(&mut self) -> Result<(), Cause>
        ensures { result ≡ no_words (words_in self.old.rest.now) }
    {
        match self.next() {
            Some(_) => Err(Cause::WordTooMany),
            None => Ok(()),
        }
    }
}

impl<'a> Iterator for Words<'a> {
    type Item = &'a [u8];

    ghost next_gives = { YieldsFirstRef (λ words. words_in words.rest.now) };

    ghost remaining = { item_count (λ words. words_in words.rest.now) };

    fn next(&mut self) -> Option<&'a [u8]> {
        while !self.rest.is_empty() {
            let (word, rest) = cut(self.rest, |byte| matches!(byte, b' ' | b'\t' | b'\r'));
            self.rest = rest;
            if !word.is_empty() {
                return Some(word);
            }
        }
        None
    }
}
