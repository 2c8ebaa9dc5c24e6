// Plays the orders of a file over a group, and tells what came of it.
#![tactic(auto)]

pub mod fault;
pub mod file_pace;
pub mod notices;
pub mod opening;
pub mod play;
pub mod program;
pub mod sizes;
