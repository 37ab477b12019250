//! What a chip keeps from sample to sample, and what a sample decides.
mod calls;

use protocol::instruction::Kind;
use protocol::parts::Width;

// What a chip is doing between two samples.
#[derive(Clone, Copy)]
pub enum Phase {
    Waiting,
    // an instruction comes in: the bits since its start bit, as their count and their value
    Taking { width: Width, count: u8, bits: u32 },
    // cells go out: the cell and the number of its bits that are out
    Reading { width: Width, cell: u16, next: u8 },
    // more bits came than the instruction has
    Spoiled,
    // nothing more is taken until CS falls
    Over,
}

// All that a chip keeps, its bytes and DO excepted.
#[derive(Clone, Copy)]
pub struct State {
    // open to changes: WEN was carried out, and no WDS since
    pub enabled: bool,
    // the samples left of a programming cycle
    pub left: u16,
    // DO shows whether a cycle is under way
    pub status: bool,
    // the levels of the sample before
    pub cs: bool,
    pub sk: bool,
    pub phase: Phase,
}

// How an instruction fared, numbered 0 to 3.
#[derive(Clone, Copy, Drop, PartialEq, Eq, Debug)]
pub enum Verdict {
    CarriedOut,
    Shut,
    Protected,
    WrongCount,
}

// What one sample decided.
#[derive(Clone, Copy)]
pub enum Decision {
    Nothing,
    // the start bit came
    Start {
        width: Width,
    },
    // a READ has its address, and DO is 0 before the first data bit
    Address {
        width: Width,
        cell: u16,
    },
    // a data bit of a cell comes on DO
    Data {
        width: Width,
        cell: u16,
        next: u8,
    },
    // an instruction is whole. Its bits name `cell` and `value` by their places, whatever the kind, which tells whether they mean
    // something; an enum with fields by kind would ask for a match on the kind where the bits are read. `value` is 0 where no data come
    Instruction {
        kind: Kind,
        width: Width,
        cell: u16,
        value: u16,
        verdict: Verdict,
    },
    // an instruction ended with a wrong count of bits
    WrongCount,
}
