//! Which chip it is.
use crate::parts::Part;

mod calls;

// When an instruction that changes cells is carried out.
#[derive(Clone, Copy, Drop, PartialEq, Eq, Debug)]
pub enum Edition {
    // as CS falls, and only at exactly its length
    Fall,
    // at its last clock
    Clock,
}

// How many samples a programming cycle lasts.
#[derive(Clone, Copy)]
pub struct Cycles {
    // of WRITE and ERASE
    pub write: u16,
    pub eral: u16,
    pub wrall: u16,
}

// A chip as a caller or a file names it, by numbers that may fit no chip: enums would ask more of both.
#[derive(Clone, Copy)]
pub struct Settings {
    pub part: u8,
    pub edition: u8,
    pub cycles: Cycles,
}

// A chip that exists. That it is offered is a clause of the conversion and no ghost field: the machine and its laws speak of every
// part in both editions.
#[derive(Clone, Copy)]
pub struct Setup {
    pub part: Part,
    pub edition: Edition,
    pub cycles: Cycles,
}
