// All that a group changes.
ghost use Rattle.std.specs.Prelude.{◌≡◌, Some, take};
ghost use Rattle.protocol.specs.Texts.{root_ending_text};

use crate::party::Party;
use crate::plan::Plan;
use std::fmt;

/// The last tick that a clock comes to: no tick is closed there, so that no sum of ticks wraps.
pub const CLOCK_LIMIT: u32 = 4_000_000_000;

/// How the root has ended; it never leaves.
#[derive(Clone, Copy, Debug, PartialEq, Eq)]
pub enum RootEnding {
    Crashed,
    Stopped,
}

impl fmt::Display for RootEnding {
    ghost output = { λ x. Some (root_ending_text x) };

    fn fmt<W: fmt::Write>(&self, f: &mut fmt::Formatter<W>) -> fmt::Result {
        f.write_str(match self {
            RootEnding::Crashed => "crashed",
            RootEnding::Stopped => "stopped",
        })
    }
}

/// The root runs, or it is down: how it ended, and the clock at its end.
#[derive(Clone, Copy, Debug, PartialEq, Eq)]
pub enum Root {
    Running,
    Down(RootEnding, u32),
}

/// The state of a group beside its log.
#[derive(Clone, Copy, Debug, PartialEq, Eq)]
pub struct Table {
    /// The present tick, which is still open.
    pub clock: u32,
    pub root: Root,
    /// The tick at which the present round started.
    pub start: u32,
    /// The ticks that the present round lasts.
    pub length: u32,
    /// How many records the group has written into its log.
    pub logged: usize,
    /// Party i stands at place i - 1; a plan of fewer parties leaves the others as they are. Fixed
    /// in size, so that opening a group never refuses.
    pub parties: [Party; 32],
}

impl Table {
    /// The parties that a plan has, rising.
    pub fn members(&self, plan: &Plan) -> &[Party]
        ensures { result.now ≡ take plan.now.n self.now.parties }
    {
        &self.parties[..plan.parties() as usize]
    }
}
