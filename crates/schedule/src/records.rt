// A start or an order, by the words of its line.
ghost use Rattle.std.specs.Prelude.{◌≡◌};
ghost use Rattle.schedule.specs.Cuts.{words_in, line_words};
ghost use Rattle.schedule.specs.Records.{start_behind, order_behind, start_in, order_in, has_leg, has_party};

use crate::complaint::Cause;
use crate::kinds::group_kind;
use crate::number::number;
use crate::words::Words;
use orders::order::{Order, OrderKind};
use orders::start::Start;
use protocol::kind::GroupKind;

// The start that a line holds; none in a line without words.
#[tactic(auto, unfolding(crate::specs::Records::start_in))]
pub(crate) fn start_in(line: &[u8]) -> Result<Option<Start>, Cause>
    ensures { result ≡ start_in (line_words line.now) }
{
    let mut words = Words::new(line);
    let Some(word) = words.next() else {
        return Ok(None);
    };
    let kind = group_kind(word)?;
    let start = start_behind(kind, &mut words)?;
    Ok(Some(start))
}

#[tactic(auto, unfolding(crate::specs::Records::start_behind))]
fn start_behind(kind: GroupKind, words: &mut Words<'_>) -> Result<Start, Cause>
    ensures { result ≡ start_behind kind (words_in words.old.rest.now) }
{
    let parties = words.byte()?;
    let pace = words.pace()?;
    let tmin = words.number(u32::MAX)?;
    let tmax = words.number(u32::MAX)?;
    words.cap()?;
    let cap = words.byte()?;
    words.end()?;
    Ok(Start {
        kind,
        parties,
        tmin,
        tmax,
        pace,
        cap,
    })
}

// The order that a line holds; none in a line without words.
#[tactic(auto, unfolding(crate::specs::Records::order_in))]
pub(crate) fn order_in(line: &[u8]) -> Result<Option<Order>, Cause>
    ensures { result ≡ order_in (line_words line.now) }
{
    let mut words = Words::new(line);
    let Some(word) = words.next() else {
        return Ok(None);
    };
    let tick = number(word, u32::MAX)?;
    let order = order_behind(tick, &mut words)?;
    Ok(Some(order))
}

#[tactic(auto, unfolding(crate::specs::Records::order_behind))]
fn order_behind(tick: u32, words: &mut Words<'_>) -> Result<Order, Cause>
    ensures { result ≡ order_behind tick (words_in words.old.rest.now) }
{
    let kind = words.order_kind()?;
    let party = words.byte_if(has_party(kind))?;
    let leg = words.byte_if(has_leg(kind))?;
    words.end()?;
    Ok(Order {
        kind,
        party,
        leg,
        tick,
    })
}

fn has_party(kind: OrderKind) -> bool
    ensures { result ≡ has_party kind }
{
    kind != OrderKind::Wait
}

fn has_leg(kind: OrderKind) -> bool
    ensures { result ≡ has_leg kind }
{
    matches!(kind, OrderKind::Deliver | OrderKind::Lose)
}
