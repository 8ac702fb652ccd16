// What each node of an accepted image is to the stack pass: names resolved once, kinds, skips, and whether skips may change the stack.
#![tactic(auto)]

pub mod kinds;
mod looks;
pub mod names;
pub mod skips;
