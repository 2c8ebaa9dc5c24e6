// The state of a heartbeat group, and what the rules say of it.
#![tactic(auto)]

pub mod call;
pub mod happening;
pub mod kind;
pub mod member;
pub mod party;
pub mod plan;
pub mod refusal;
mod steps;
pub mod table;
