// The word that a complaint is about.
ghost use Rattle.std.specs.Prelude.{◌≡◌, false};
ghost use Rattle.std.specs.Option.{option_map};
ghost use Rattle.schedule.specs.Cuts.{lines_in, line_words, words_in};
ghost use Rattle.schedule.specs.Misfits.{seen, first_misfit, line_misfit, misfit_at, MisfitsExplain, ComplaintsExplained};

use crate::complaint::Cause;
use crate::lines::Lines;
use crate::map::has_words;
use crate::place::{Place, START_PLACES, order_places};
use crate::words::Words;

/// A word that its place does not take, or the end of the line where a word is due.
#[derive(Clone, Copy, Debug, PartialEq, Eq)]
pub struct Misfit<'a> {
    /// none where the line ends
    pub word: Option<&'a [u8]>,
    /// what is due there
    pub place: Place,
    /// what is wrong with the word
    pub cause: Cause,
}

/// The first misfit on line `number` of a text, counted from 1; none where every word fits.
/// That line is read as the start's where no line before it has a word, and else as an order's.
pub fn find_misfit(text: &[u8], number: usize) -> Option<Misfit<'_>>
    ensures first { option_map seen result ≡ misfit_at number false 0 (lines_in text.now) }
    ensures explains { MisfitsExplain }
    ensures complaints { ComplaintsExplained }
{
    let mut lines = Lines::new(text);
    let mut started = false;
    while let Some(line) = lines.next() {
        if lines.number() == number {
            return line_misfit(line, started);
        }
        started = started || has_words(line);
    }
    None
}

// On one line, once a start was read or before.
fn line_misfit(line: &[u8], started: bool) -> Option<Misfit<'_>>
    ensures { option_map seen result ≡ line_misfit started (line_words line.now) }
{
    let places = if started {
        order_places(line)
    } else {
        &START_PLACES
    };
    first_misfit(places, Words::new(line))
}

// The first of the places that does not take its word.
fn first_misfit<'a>(places: &[Place], mut words: Words<'a>) -> Option<Misfit<'a>>
    ensures { option_map seen result ≡ first_misfit places.now (words_in words.entry.rest.now) }
{
    for place in places {
        let word = words.next();
        if let Some(cause) = place.fault(word) {
            return Some(Misfit {
                word,
                place: *place,
                cause,
            });
        }
    }
    None
}
