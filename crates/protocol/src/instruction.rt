//! The seven instructions.
mod calls;

#[derive(Clone, Copy, Drop, PartialEq, Eq, Debug)]
pub enum Kind {
    Read,
    Write,
    Erase,
    Wen,
    Wds,
    Eral,
    Wrall,
}

// An instruction to be sent. A READ fetches a number of words.
#[derive(Clone, Copy)]
pub enum Instruction {
    Read { address: u16, words: u16 },
    Write { address: u16, value: u16 },
    Erase { address: u16 },
    Wen,
    Wds,
    Eral,
    Wrall { value: u16 },
}
