// A log of happenings as GraphML, in the caller's bytes.
#![tactic(auto)]

pub mod answer;
mod element;
pub mod example;
pub mod export;
mod graph;
mod lines;
mod output;
pub mod run;
