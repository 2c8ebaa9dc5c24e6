// What is due first of a party, a beat on one of its legs or its timer, by what timers go by.
ghost use Rattle.std.specs.Prelude.{◌≡◌, ℕ, ◌-◌, ◌<◌, ◌≤◌, true, false, length, slice_index_or};
ghost use Rattle.protocol.specs.calls.Tick.{due_on, calls_in};
ghost use Rattle.protocol.specs.Party.{nobody};
ghost use Rattle.protocol.specs.Rules.{trip};
ghost use Rattle.protocol.specs.Quiet.{timer_rests, Rests};
ghost use Rattle.protocol.specs.declared.party.Stage.TheVariants.{Joining};
ghost use Rattle.group.specs.Patience.{Suffices};
ghost use Rattle.group.specs.Until.{Until};

use crate::dues::patience::{patience_for, trip_of};
use pace::Pace;
use pace::limits::Limits;
use protocol::party::{Beat, Own, Party, Stage, Standing};
use protocol::plan::Plan;
use protocol::table::Table;

// What the parties' timers go by at a clock.
#[derive(Clone, Copy, Debug, PartialEq, Eq)]
pub(crate) struct Timer {
    pub(crate) clock: u32,
    pub(crate) patience: u32,
    pub(crate) trip: u32,
    pub(crate) limits: Limits,
    ghost some: { 0 < patience },
    ghost brief: { trip ≤ 1000000 },
}

impl Timer {
    // At the table's clock, with a patience that does for it.
    pub(crate) fn at<P: Pace>(pace: &P, plan: &Plan, table: &Table) -> Timer
        ensures clock { result.clock ≡ table.now.clock }
        ensures patience { Suffices (P.means pace.now) plan.now table.now result.patience }
        ensures trip { result.trip ≡ trip (P.means pace.now) }
        ensures tmin { result.limits.tmin ≡ (P.means pace.now).tmin }
    {
        Timer {
            clock: table.clock,
            patience: patience_for(pace, plan, table),
            trip: trip_of(pace),
            limits: pace.limits(),
        }
    }

    // The next joining beat of a party: after each positive multiple of tmin ticks of silence.
    fn call_due(&self, since: u32) -> u32
        ensures { Until self.now.clock result
            (λ c. calls_in Joining self.now.limits.tmin (c - since) ≡ false) }
    {
        let silent = self.clock.saturating_sub(since);
        let past = silent % self.limits.tmin();
        if silent > 0 && past == 0 {
            self.clock
        } else {
            self.clock.saturating_add(self.limits.tmin() - past)
        }
    }

    // The end of a party's patience, or its next joining beat.
    fn own_due(&self, own: Own) -> u32
        ensures { Until self.now.clock result (λ c. timer_rests own.standing
            self.now.patience self.now.limits.tmin (c - own.since) ≡ true) }
    {
        let end = own.since.saturating_add(self.patience);
        match own.standing {
            Standing::Live(Stage::Joining) => end.min(self.call_due(own.since)),
            Standing::Live(Stage::In | Stage::Leaving) => end,
            Standing::Outside | Standing::Ended(..) => u32::MAX,
        }
    }

    // What is due first of a party: a beat on one of its legs, or its timer.
    fn party_due(&self, party: &Party) -> u32
        ensures { Until self.now.clock result
            (λ c. Rests self.now.patience self.now.limits.tmin c party.now) }
    {
        let legs = party.legs;
        beat_due(legs.out)
            .min(beat_due(legs.reply))
            .min(beat_due(legs.entry))
            .min(self.own_due(party.own))
    }

    // What is due first of all of them.
    pub(crate) fn parties_due(&self, parties: &[Party]) -> u32
        ensures { Until self.now.clock result (λ c. (k : ℕ) → k < length parties.now →
            Rests self.now.patience self.now.limits.tmin c (slice_index_or parties.now k nobody)) }
    {
        let mut due = u32::MAX;
        for party in parties {
            due = due.min(self.party_due(party));
        }
        due
    }
}

// The last tick of the beat on a leg; no tick where there is none.
fn beat_due(beat: Option<Beat>) -> u32
    ensures { (c : ℕ) → c < result → due_on c beat ≡ false }
{
    beat.map_or(u32::MAX, |beat| beat.last)
}
