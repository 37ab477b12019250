//! The listing of a trace file, as text.
#![tactic(auto)]

pub mod file;
pub mod lines;
mod show;
