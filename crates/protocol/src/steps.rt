// The steps of one party, each in place: the calls of a group are made of them.
ghost use Rattle.std.specs.Prelude.{◌≡◌, ◌<◌};
ghost use Rattle.protocol.specs.Legs.{leg_number};
ghost use Rattle.protocol.specs.Party.{beat, live, on_roll, on_leg, off_leg};
ghost use Rattle.protocol.specs.calls.Deliver.{hears_as, answers, arrives};
ghost use Rattle.protocol.specs.calls.Tick.{missed_to, sends, due, due_on, missed_all, times, timer_word};
ghost use Rattle.protocol.specs.calls.Crash.{crashes};
ghost use Rattle.protocol.specs.calls.Join.{joined};

use crate::happening::HappeningKind;
use crate::party::*;
use crate::table::Root;
use pace::limits::Limits;

impl Beat {
    fn new(last: u32, parting: bool, place: usize) -> Beat
        ensures { result ≡ beat last parting place }
    {
        Beat {
            last,
            parting,
            place,
        }
    }
}

impl Party {
    // A beat of the root arrives at the party, which replies to it while it lives; answers whether
    // it does. The reply keeps the beat's last tick, so that a round trip fits into one trip time.
    fn hear(&mut self, clock: u32, beat: Beat, place: usize) -> bool
        ensures answer { result ≡ live self.old.own.standing }
        ensures after { self.new ≡ hears_as self.old.own.standing clock place beat.last self.old }
    {
        match (self.own.standing, beat) {
            (Standing::Live(Stage::Joining | Stage::In), Beat { last, .. }) => {
                self.own = Own {
                    standing: Standing::Live(Stage::In),
                    since: clock,
                };
                self.legs.reply = Some(Beat::new(last, false, place));
                true
            }
            (Standing::Live(Stage::Leaving), Beat { last, .. }) => {
                self.own.since = clock;
                self.legs.reply = Some(Beat::new(last, true, place));
                true
            }
            (Standing::Outside | Standing::Ended(..), _) => false,
        }
    }

    // A beat of the party arrives at a running root. Struck comes first: a late beat never enrols
    // such a party again.
    fn answer(&mut self, parting: bool)
        ensures { self.new ≡ answers parting self.old }
    {
        match (self.note.roll, parting) {
            (Roll::Struck, _) => {}
            (_, true) => self.note.roll = Roll::Struck,
            (Roll::On, false) => self.note.heard = true,
            (Roll::Off, false) => self.note = Note {
                roll: Roll::On,
                heard: true,
                misses: 0,
            },
        }
    }

    /// Ends a party that is joining, in or leaving; false where it is not.
    pub fn crash(&mut self, clock: u32) -> bool
        ensures answer { result ≡ live self.old.own.standing }
        ensures after { self.new ≡ crashes clock self.old }
    {
        match self.own.standing {
            Standing::Live(stage) => {
                self.own.standing = Standing::Ended(Ending::Crashed, clock, stage);
                true
            }
            Standing::Ended(..) | Standing::Outside => false,
        }
    }

    /// The end of a round as the root notes it; the count of misses stays at the largest number,
    /// which no run comes near.
    pub fn miss(&mut self)
        ensures { self.new ≡ missed_to 4294967295 self.old }
    {
        if self.note.roll == Roll::On {
            self.note.misses = if self.note.heard {
                0
            } else {
                self.note.misses.saturating_add(1)
            };
        }
    }

    /// The root's beat goes out, where the party is on the roll; answers whether it did. A new
    /// round begins unheard.
    pub fn send(&mut self, last: u32, place: usize) -> bool
        ensures answer { result ≡ on_roll self.old.note.roll }
        ensures after { self.new ≡ sends last place self.old }
    {
        match self.note.roll {
            Roll::On => {
                self.legs.out = Some(Beat::new(last, false, place));
                self.note.heard = false;
                true
            }
            Roll::Off | Roll::Struck => false,
        }
    }

    /// On the roll, and silent for all the rounds of the pace.
    pub fn has_missed_all(&self, rounds: u32) -> bool
        ensures { result ≡ missed_all rounds self.now }
    {
        self.note.roll == Roll::On && self.note.misses == rounds
    }

    /// The party's timer; answers what it tells, if anything. Patience comes first: a party that
    /// ends sends nothing. `last` is the last tick of a joining beat that goes out, `place` the log
    /// place of its sending.
    pub fn time(
        &mut self,
        clock: u32,
        patience: u32,
        limits: Limits,
        last: u32,
        place: usize,
    ) -> Option<HappeningKind>
        ensures answer { result
            ≡ timer_word self.old.own.standing clock patience limits.tmin self.old.own.since }
        ensures after { self.new ≡ times clock patience limits.tmin last place self.old }
    {
        let silent = clock.saturating_sub(self.own.since);
        match self.own.standing {
            Standing::Live(stage) if silent >= patience => {
                let (how, word) = match stage {
                    Stage::Leaving => (Ending::Left, HappeningKind::Left),
                    Stage::Joining | Stage::In => (Ending::Stopped, HappeningKind::Stopped),
                };
                self.own.standing = Standing::Ended(how, clock, stage);
                Some(word)
            }
            Standing::Live(Stage::Joining) if silent > 0 && silent % limits.tmin() == 0 => {
                self.legs.entry = Some(Beat::new(last, false, place));
                Some(HappeningKind::Sent)
            }
            _ => None,
        }
    }

    /// Joining, in or leaving.
    pub fn is_live(&self) -> bool
        ensures { result ≡ live self.now.own.standing }
    {
        matches!(self.own.standing, Standing::Live(_))
    }

    /// The beat on a leg.
    pub fn on_leg(&self, leg: Leg) -> Option<Beat>
        ensures { result ≡ on_leg (leg_number leg) self.now }
    {
        match leg {
            Leg::Out => self.legs.out,
            Leg::Reply => self.legs.reply,
            Leg::Entry => self.legs.entry,
        }
    }

    /// Takes the beat off a leg.
    pub fn take_off(&mut self, leg: Leg)
        ensures { self.new ≡ off_leg (leg_number leg) self.old }
    {
        match leg {
            Leg::Out => self.legs.out = None,
            Leg::Reply => self.legs.reply = None,
            Leg::Entry => self.legs.entry = None,
        }
    }

    /// The beat comes off its leg: leg 1 brings it to the party, the other two to the root, which
    /// does nothing more once it is down. `place` is the log place of the party's reply.
    pub fn arrive(&mut self, clock: u32, root: Root, leg: Leg, beat: Beat, place: usize)
        ensures { self.new ≡ arrives clock root (leg_number leg) beat place self.old }
    {
        self.take_off(leg);
        match (leg, root) {
            (Leg::Out, _) => {
                let _ = self.hear(clock, beat, place);
            }
            (Leg::Reply | Leg::Entry, Root::Running) => self.answer(beat.parting),
            (Leg::Reply | Leg::Entry, Root::Down(..)) => {}
        }
    }

    /// An outside party becomes joining, and its beat goes out.
    pub fn join(&mut self, clock: u32, last: u32, place: usize)
        ensures { self.new ≡ joined clock last place self.old }
    {
        self.own = Own {
            standing: Standing::Live(Stage::Joining),
            since: clock,
        };
        self.legs.entry = Some(Beat::new(last, false, place));
    }

    /// Whether a beat on a leg has come to its last tick.
    pub fn is_due(&self, clock: u32) -> bool
        ensures { result ≡ due clock self.now }
    {
        is_due_on(clock, self.legs.out)
            || is_due_on(clock, self.legs.reply)
            || is_due_on(clock, self.legs.entry)
    }
}

fn is_due_on(clock: u32, leg: Option<Beat>) -> bool
    ensures { result ≡ due_on clock leg }
{
    leg.is_some_and(|beat| beat.last == clock)
}
