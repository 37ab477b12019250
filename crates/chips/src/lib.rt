//! The 93C pin machine, what every chip promises, and models of the two editions over the caller's memory.
#![tactic(auto)]

mod cells;
pub mod chip;
pub mod clock;
pub mod control;
pub mod fall;
mod incoming;
mod lent;
mod live;
pub mod model;
pub mod state;
mod word;
