// The order file: a start record and then one for each order, read from and written as bytes.
#![tactic(auto)]

pub mod fault;
pub mod load;
pub mod order;
mod reader;
pub mod start;
