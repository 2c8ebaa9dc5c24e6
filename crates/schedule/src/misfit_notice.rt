// A misfit in words.
ghost use Rattle.std.specs.Prelude.{◌≡◌, ◌≤◌, length, take};
ghost use Rattle.std.specs.Option.{option_map};
ghost use Rattle.text.specs.Lines.{padded_text};
ghost use Rattle.schedule.specs.Misfits.{seen};
ghost use Rattle.schedule.specs.MisfitNotices.{met_words, misfit_line, place_words};

use crate::misfit::Misfit;
use crate::place::Place;
use text::Line;
use text::line_bytes::LineBytes;

// How many bytes of a word are told at most.
const SHOWN: usize = 40;

/// The line that tells a planner which word was met, and what is due in its place.
pub fn misfit_notice(misfit: Misfit<'_>) -> LineBytes
    ensures bytes { result.bytes ≡ padded_text (misfit_line (seen misfit.entry)) }
    ensures len { result.len ≡ length (misfit_line (seen misfit.entry)) }
    ensures within { result.len ≤ 128 }
{
    misfit_line(misfit).into_bytes()
}

fn misfit_line(misfit: Misfit<'_>) -> Line
    ensures { result ≡ misfit_line (seen misfit.entry) }
{
    let mut line = met_line(misfit.word);
    line.add(place_words(misfit.place));
    line.add(b" is due\n");
    line
}

// Its front, up to what is due.
fn met_line(word: Option<&[u8]>) -> Line
    ensures { result ≡ met_words (option_map (λ w. w.now) word.entry) }
{
    let mut line = Line::new();
    let Some(word) = word else {
        line.add(b"the line ends where ");
        return line;
    };
    line.add(b"met '");
    line.add(shown(word));
    line.add(b"' where ");
    line
}

fn shown(word: &[u8]) -> &[u8]
    ensures { result.now ≡ take 40 word.now }
{
    if word.len() > SHOWN {
        &word[..SHOWN]
    } else {
        word
    }
}

fn place_words(place: Place) -> &'static [u8]
    ensures { result.now ≡ place_words place }
{
    match place {
        Place::GroupKind => b"closed, expanding or dynamic",
        Place::Parties => b"the number of parties, up to 255,",
        Place::Pace => b"halving or two-phase",
        Place::Tmin => b"tmin, a number up to 4294967295,",
        Place::Tmax => b"tmax, a number up to 4294967295,",
        Place::CapWord => b"the word cap",
        Place::Cap => b"the cap, a number up to 255,",
        Place::Tick => b"a tick, a number up to 4294967295,",
        Place::OrderKind => b"deliver, lose, crash, join, leave or wait",
        Place::Party => b"a party, a number up to 255,",
        Place::Leg => b"a leg, a number up to 255,",
        Place::End => b"the end of the line",
    }
}
