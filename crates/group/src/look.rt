// What whoever looks on may know of a group.
ghost use Rattle.std.specs.Prelude.{◌≡◌};
ghost use Rattle.protocol.specs.Order.{TellsOwnLog};
ghost use Rattle.protocol.specs.Questions.{is_own_log};
ghost use Rattle.protocol.specs.Views.{state_of};
ghost use Rattle.group.specs.Views.{seen_party, seen_beat};
ghost use Rattle.protocol.specs.Rules.{patience};

use crate::dues::patience_of;
use crate::group::Group;
use crate::questions::is_own_log;
use pace::Pace;
use protocol::happening::Happening;
use protocol::party::{Beat, Leg, Party};
use protocol::plan::Plan;
use protocol::table::Root;
use slots::SlotList;

impl<P: Pace> Group<P> {
    /// The present tick; it is still open.
    pub fn clock(&self) -> u32
        ensures { result ≡ self.now.table.clock }
    {
        self.table.clock
    }

    /// Whether the root runs, or how and at which tick it ended.
    pub fn root(&self) -> Root
        ensures { result ≡ self.now.table.root }
    {
        self.table.root
    }

    /// The kind of the group and the number of its parties.
    pub fn plan(&self) -> Plan
        ensures { result ≡ self.now.plan }
    {
        self.plan
    }

    /// The pace that the group was opened with.
    pub fn pace(&self) -> &P
        ensures { result.now ≡ self.now.pace }
    {
        &self.pace
    }

    /// How many records the group has written into its log.
    pub fn logged(&self) -> usize
        ensures { result ≡ self.now.table.logged }
    {
        self.table.logged
    }

    /// Is this the log that the group wrote? Told by the number of its records and their ticks.
    #[tactic(auto, using(protocol::proofs::Own::tells_own))]
    pub fn wrote(&self, log: &SlotList<'_, Happening>) -> bool
        ensures answer { result ≡ is_own_log (state_of self.now.table log.now) }
        ensures own { TellsOwnLog result (state_of self.now.table log.now) }
    {
        is_own_log(&self.table, log)
    }

    /// A party with the root's notes on it and what is on its legs, by its number from 1. There is
    /// none where the plan has no such party.
    pub fn party(&self, party: u8) -> Option<Party>
        ensures { result ≡ seen_party self.now.plan self.now.table party }
    {
        let member = self.plan.member(party)?;
        Some(self.table.parties[member.index()])
    }

    /// The beat on a leg of a party, by their numbers; none also where party or leg is unknown.
    pub fn beat(&self, party: u8, leg: u8) -> Option<Beat>
        ensures { result ≡ seen_beat leg (seen_party self.now.plan self.now.table party) }
    {
        self.party(party)?.on_leg(Leg::numbered(leg)?)
    }

    /// D: the ticks of silence after which a party ends.
    pub fn patience(&self) -> u32
        ensures { result ≡ patience (P.means self.now.pace) self.now.plan.kind }
    {
        patience_of(&self.pace, self.plan.kind())
    }
}
