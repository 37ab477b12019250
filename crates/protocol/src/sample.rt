//! One sample of the input pins.
mod calls;

pub use calls::{check_samples, first_high};

// The levels: chip select, clock, data in, organisation, protect enable.
#[derive(Clone, Copy)]
pub struct Sample {
    pub cs: bool,
    pub sk: bool,
    pub di: bool,
    pub org: bool,
    pub pe: bool,
}

// The levels to which a board ties ORG and PE.
#[derive(Clone, Copy, Drop)]
pub struct Straps {
    pub org: bool,
    pub pe: bool,
}
