//! What goes over the wire: frames and polling as lists of samples, how they are sent, and the laws of what they do to a chip.
#![tactic(auto)]

pub mod frame;
pub mod polling;
pub mod signals;
