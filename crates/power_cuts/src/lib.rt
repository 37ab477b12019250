//! Power cuts in a history: the bytes are those of a whole number of calls.
#![tactic(auto)]

pub mod cut;
mod twin;
