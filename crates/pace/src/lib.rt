// Paces of a heartbeat: how long the root waits in each round.
#![tactic(auto)]

pub mod cap;
pub mod halving;
pub mod limits;
pub mod listed;
pub mod meaning;
pub mod refusal;
pub mod total;
pub mod two_phase;

pub use self::meaning::Pace;
