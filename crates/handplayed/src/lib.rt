// Runs played by hand, with their figures: shown from the rules, and made again through the public
// calls.
#![tactic(auto)]

#[cfg(test)]
mod files;
#[cfg(test)]
mod groups;
#[cfg(test)]
mod lines;
#[cfg(test)]
mod lists;
#[cfg(test)]
mod paces;
#[cfg(test)]
mod play;
pub mod worked;
