// Text in bytes: one write into lent bytes, a number's digits, and one line under construction.
#![tactic(auto)]

mod build;
pub mod bytes;
mod decimal;
pub mod line_bytes;

pub use self::build::Line;
