//! The frame of an instruction, as numbers.
mod calls;
mod send;

// After the start bit come the lowest `bits` bits of a number, the highest first, and then zero bits.
#[derive(Clone, Copy, Drop)]
pub struct Frame {
    pub bits: u8,
    pub code: u64,
    pub zeros: u32,
}
