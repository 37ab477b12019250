//! A call of the driver, as data.
mod calls;

#[derive(Clone, Copy, Drop, PartialEq, Eq, Debug)]
pub enum Call {
    Greet,
    Settle,
    Open,
    Shut,
    Read { address: u16 },
    Run { address: u16, count: usize },
    Write { address: u16, value: u16 },
    Erase { address: u16 },
    Fill { value: u16 },
    Clear,
}
