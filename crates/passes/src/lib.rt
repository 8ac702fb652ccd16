// The checks of repetitions, choices and left recursion, and the final order of reports.
#![tactic(auto)]

pub mod left;
pub mod order;
mod placing;
pub mod topdown;
