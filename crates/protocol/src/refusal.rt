//! Why a call is refused, and where.
mod calls;

// Each cause has a number, 1 to 15 in this order.
#[derive(Clone, Copy, Drop, PartialEq, Eq, Debug)]
pub enum Cause {
    // the input
    Address = 1,
    Value,
    WordCount,
    HighSample,
    BufferLength,
    BadSettings,
    MemorySize,
    NoRoom,
    FileForm,
    // the state
    BlankChip,
    NotGreeted,
    Shut,
    Protected,
    Busy,
    Unfinished,
}

// A cause with its place, 0 where the cause has none: C and texts tell each refusal as two numbers.
#[derive(Clone, Copy, Drop, PartialEq, Eq, Debug)]
pub struct Refusal {
    pub cause: Cause,
    pub place: usize,
}
