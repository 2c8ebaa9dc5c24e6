// Happenings and refusals in words.
use group::Group;
use pace::Pace;
use protocol::happening::{Happening, HappeningKind};
use protocol::party::Beat;
use protocol::refusal::Refusal;
use std::{fmt, io};

// The root or a party, by its number.
#[derive(Clone, Copy, Debug, PartialEq, Eq)]
pub struct Who(pub u8);

impl fmt::Display for Who {
    fn fmt<W: fmt::Write>(&self, f: &mut fmt::Formatter<W>) -> fmt::Result {
        let number = self.0;
        if number == 0 {
            write!(f, "root")
        } else {
            write!(f, "party {number}")
        }
    }
}

fn is_from(leg: Option<Beat>, place: usize) -> bool {
    leg.is_some_and(|beat| beat.place == place)
}

// To whom the root sent the beat at a log place, which is still on its leg.
fn addressee<P: Pace>(group: &Group<P>, place: usize) -> Who {
    (1..=group.plan().parties())
        .find(|number| {
            group
                .party(*number)
                .is_some_and(|party| is_from(party.legs.out, place))
        })
        .map_or(Who(0), Who)
}

fn tell_sending<P: Pace>(
    rt: &impl Print,
    group: &Group<P>,
    owner: u8,
    place: usize,
) -> io::Result<()> {
    let who = Who(owner);
    if owner == 0 {
        let to = addressee(group, place);
        return println!(rt; "root sends to {to} (h{place})");
    }
    match group.party(owner) {
        Some(party) if is_from(party.legs.entry, place) => println!(rt;
            "{who} asks to join (h{place})"
        ),
        _ => println!(rt; "{who} replies (h{place})"),
    }
}

// Tells the record at a place of the log, just after it was written.
pub(crate) fn tell<P: Pace>(
    rt: &impl Print,
    group: &Group<P>,
    log: &[Happening],
    place: usize,
    happening: Happening,
) -> io::Result<()> {
    let tick = happening.tick;
    let link = happening.link;
    let who = Who(happening.owner);
    print!(rt; "tick {tick}  ")?;
    match happening.kind {
        HappeningKind::Sent => tell_sending(rt, group, happening.owner, place),
        HappeningKind::Arrived => {
            let from = log.get(link).map_or(Who(0), |sending| Who(sending.owner));
            println!(rt; "a beat of {from} arrives at {who} (h{place}, sent as h{link})")
        }
        HappeningKind::Lost => println!(rt; "a beat of {who} is lost (h{place}, sent as h{link})"),
        HappeningKind::Enrolled => println!(rt; "{who} is enrolled (h{place})"),
        HappeningKind::Struck => println!(rt; "{who} is struck from the roll (h{place})"),
        HappeningKind::Crashed => println!(rt; "{who} crashes (h{place})"),
        HappeningKind::Stopped => println!(rt; "{who} stops (h{place})"),
        HappeningKind::Left => println!(rt; "{who} has left (h{place})"),
        HappeningKind::Joining => println!(rt; "{who} begins to join (h{place})"),
        HappeningKind::Leaving => println!(rt; "{who} begins to leave (h{place})"),
    }
}

pub(crate) fn tell_refusal(rt: &impl Print, clock: u32, refusal: Refusal) -> io::Result<()> {
    let number = refusal.number();
    println!(rt; "tick {clock}  refused by number {number}: {refusal} No.")
}
