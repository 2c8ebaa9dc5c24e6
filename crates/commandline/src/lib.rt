// What a program is asked for by the words behind its name, and how it answers what is no request.
#![tactic(auto)]

pub mod front;
pub mod request;
