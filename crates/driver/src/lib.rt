//! The driver, over any chip: it sees only what put and facts promise.
#![tactic(auto)]

pub mod driver;
mod signals;
