//! Calls as data, a call that performs a list of them, and the laws over whole histories.
#![tactic(auto)]

pub mod both;
pub mod call;
pub mod perform;
pub mod told;
