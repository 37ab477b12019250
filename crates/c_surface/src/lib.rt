//! The library for C: numbers and byte slices only, and every refusal as its number and place.
#![tactic(auto)]

pub mod answer;
pub mod frames;
pub mod listings;
pub mod runs;
pub mod settings;
