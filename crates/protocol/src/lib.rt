//! What every layer speaks of: parts, widths, settings, samples, instructions, refusals, and a list in a caller's slice.
#![tactic(auto)]

pub mod instruction;
pub mod list;
pub mod parts;
pub mod refusal;
pub mod sample;
pub mod settings;
pub mod source;
