// Which lines of a text hold its records.
ghost use Rattle.std.specs.Prelude.{◌≡◌};
ghost use Rattle.std.specs.Iterator.{YieldsFirst, item_count};
ghost use Rattle.schedule.specs.Cuts.{lines_in, line_words};
ghost use Rattle.schedule.specs.Maps.{has_words, record_lines, all_lines_behind, MapsOrders};

use crate::lines::Lines;
use crate::words::Words;

/// The numbers of the lines that have words, in rising order: of a text that composes the start's
/// line is the first, and each later one is that of an order, in the orders' own order.
#[derive(Drop)]
pub struct RecordLines<'a> {
    lines: Lines<'a>,
}

impl<'a> RecordLines<'a> {
    /// Of the whole text; lines are counted from 1.
    pub fn new(text: &'a [u8]) -> RecordLines<'a>
        ensures lines { all_lines_behind result.lines.number result.lines.rest.now
            ≡ record_lines text.now }
        ensures orders { MapsOrders }
    {
        RecordLines {
            lines: Lines::new(text),
        }
    }
}

impl<'a> Iterator for RecordLines<'a> {
    type Item = usize;

    ghost next_gives = { YieldsFirst
        (λ records. all_lines_behind records.lines.number records.lines.rest.now) };

    ghost remaining = { item_count (λ records. all_lines_behind records.lines.number records.lines.rest.now) };

    fn next(&mut self) -> Option<usize> {
        while let Some(line) = self.lines.next() {
            if has_words(line) {
                return Some(self.lines.number());
            }
        }
        None
    }
}

// Whether a line has words.
pub(crate) fn has_words(line: &[u8]) -> bool
    ensures { result ≡ has_words (line_words line.now) }
{
    Words::new(line).next().is_some()
}
