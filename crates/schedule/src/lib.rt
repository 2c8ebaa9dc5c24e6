// A schedule written as text: read line by line, and composed into an order file.
#![tactic(auto)]

pub mod complaint;
pub mod compose;
mod cut;
mod kinds;
mod lines;
pub mod map;
pub mod misfit;
pub mod misfit_notice;
pub mod notice;
mod number;
pub mod place;
mod read;
mod records;
mod words;
mod write;
