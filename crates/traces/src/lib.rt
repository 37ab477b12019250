//! The reader: which instructions a trace of a chip's pins sends, and whether the chip takes them.
#![tactic(auto)]

pub mod entry;
pub mod reader;
pub mod replay;
pub mod start_bit;
