// The lines of a text, taken one by one.
ghost use Rattle.std.specs.Prelude.{◌≡◌, ◌+◌, ◌^◌, ◌<◌, [], ◌∷◌, length, MatchOption};
ghost use Rattle.std.specs.Iterator.{item_count};
ghost use Rattle.schedule.specs.Cuts.{lines_in};

use crate::cut::cut;

// What is left of the caller's text, and how many lines came before it.
#[derive(Drop)]
pub(crate) struct Lines<'a> {
    rest: &'a [u8],
    number: usize,
    ghost fits: { number + length rest.now < 2 ^ 63 },
}

impl<'a> Lines<'a> {
    pub(crate) fn new(text: &'a [u8]) -> Lines<'a>
        ensures text { result.rest.now ≡ text.now }
        ensures number { result.number ≡ 0 }
    {
        Lines {
            rest: text,
            number: 0,
        }
    }

    // The number of the last line that was taken, the first being 1.
    pub(crate) fn number(&self) -> usize
        ensures number { result ≡ self.now.number }
        ensures fits { result < 2 ^ 63 }
    {
        self.number
    }
}

impl<'a> Iterator for Lines<'a> {
    type Item = &'a [u8];

    ghost next_gives = { λ before line after. MatchOption line
        ((lines_in before.rest.now ≡ [])
        × (lines_in after.rest.now ≡ []) × (after.number ≡ before.number))
        (λ line. (lines_in before.rest.now ≡ line.now ∷ lines_in after.rest.now)
        × (after.number ≡ before.number + 1)) };

    ghost remaining = { item_count (λ lines. lines_in lines.rest.now) };

    fn next(&mut self) -> Option<&'a [u8]> {
        if self.rest.is_empty() {
            return None;
        }
        let (line, rest) = cut(self.rest, |byte| byte == b'\n');
        self.rest = rest;
        self.number += 1;
        Some(line)
    }
}
