// A group with its log, from its opening on.
#![tactic(auto)]

pub mod making;
pub mod run;
