//! What the bits of an instruction say, and what an instruction is given.
ghost use Rattle.std.specs.Prelude.{◌≡◌, ◌≤◌, Some, Ok};
ghost use Rattle.protocol.specs.Instructions.{kind_of, kind_word, length_of, has_data, is_change, kind_in, address_in, value_in};
ghost use Rattle.protocol.specs.Inputs.{in_range, in_width, some_words, inputs};

use crate::instruction::{Instruction, Kind};
use crate::parts::Organisation;
use crate::refusal::{Cause, Refusal};
use std::fmt;

impl Kind {
    // By the opcode and, under opcode 00, the first two address bits. No `From`: of a pair it would not say which number is which.
    pub fn decode(opcode: u32, first: u32) -> Kind
        ensures { result ≡ kind_of opcode first }
    {
        match opcode {
            0b10 => Kind::Read,
            0b01 => Kind::Write,
            0b11 => Kind::Erase,
            0b00 if first == 0b11 => Kind::Wen,
            0b00 if first == 0b00 => Kind::Wds,
            0b00 if first == 0b10 => Kind::Eral,
            0b00 if first == 0b01 => Kind::Wrall,
            // no two bits make another number
            _ => Kind::Wrall,
        }
    }

    // Do data bits follow its address?
    pub fn has_data(self) -> bool
        ensures { result ≡ has_data self }
    {
        matches!(self, Kind::Write | Kind::Wrall)
    }

    // Does it change cells?
    pub fn is_change(self) -> bool
        ensures { result ≡ is_change self }
    {
        match self {
            Kind::Write | Kind::Erase | Kind::Eral | Kind::Wrall => true,
            Kind::Read | Kind::Wen | Kind::Wds => false,
        }
    }
}

impl fmt::Display for Kind {
    ghost output = { λ kind. Some (kind_word kind) };

    fn fmt<W: fmt::Write>(&self, f: &mut fmt::Formatter<W>) -> fmt::Result {
        f.write_str(match self {
            Kind::Read => "READ",
            Kind::Write => "WRITE",
            Kind::Erase => "ERASE",
            Kind::Wen => "WEN",
            Kind::Wds => "WDS",
            Kind::Eral => "ERAL",
            Kind::Wrall => "WRALL",
        })
    }
}

impl Organisation {
    // How many bits follow the start bit of an instruction.
    pub fn length(self, kind: Kind) -> u8
        ensures is { result ≡ length_of self.part self.width kind }
        ensures least { 8 ≤ result }
        ensures most { result ≤ 29 }
    {
        let address = 2 + self.field();
        if kind.has_data() {
            address + self.width.bits()
        } else {
            address
        }
    }

    fn check_address(self, address: u16) -> Result<(), Refusal>
        ensures { result ≡ in_range self.part self.width address (Ok tt) }
    {
        if address < self.cells() {
            Ok(())
        } else {
            Err(Cause::Address.into())
        }
    }

    fn check_value(self, value: u16) -> Result<(), Refusal>
        ensures { result ≡ in_width self.width value (Ok tt) }
    {
        if value <= self.width.ones() {
            Ok(())
        } else {
            Err(Cause::Value.into())
        }
    }

    fn check_words(self, words: u16) -> Result<(), Refusal>
        ensures { result ≡ some_words self.part self.width words (Ok tt) }
    {
        if words == 0 || words > self.cells() {
            Err(Cause::WordCount.into())
        } else {
            Ok(())
        }
    }

    // What an instruction is given: address, value and number of words, as far as it has them.
    pub fn check(self, instruction: Instruction) -> Result<(), Refusal>
        ensures { result ≡ inputs self.part self.width instruction (Ok tt) }
    {
        match instruction {
            Instruction::Read { address, words } => {
                self.check_address(address)?;
                self.check_words(words)
            }
            Instruction::Write { address, value } => {
                self.check_address(address)?;
                self.check_value(value)
            }
            Instruction::Erase { address } => self.check_address(address),
            Instruction::Wrall { value } => self.check_value(value),
            Instruction::Wen | Instruction::Wds | Instruction::Eral => Ok(()),
        }
    }
}

impl Instruction {
    pub fn kind(self) -> Kind
        ensures { result ≡ kind_in self }
    {
        match self {
            Instruction::Read { .. } => Kind::Read,
            Instruction::Write { .. } => Kind::Write,
            Instruction::Erase { .. } => Kind::Erase,
            Instruction::Wen => Kind::Wen,
            Instruction::Wds => Kind::Wds,
            Instruction::Eral => Kind::Eral,
            Instruction::Wrall { .. } => Kind::Wrall,
        }
    }

    // 0 where there is none: bits of a frame that do not matter are 0.
    pub fn address(self) -> u16
        ensures { result ≡ address_in self }
    {
        match self {
            Instruction::Read { address, .. }
            | Instruction::Write { address, .. }
            | Instruction::Erase { address } => address,
            _ => 0,
        }
    }

    // Its data, 0 where it has none, for the same reason.
    pub fn value(self) -> u16
        ensures { result ≡ value_in self }
    {
        match self {
            Instruction::Write { value, .. } | Instruction::Wrall { value } => value,
            _ => 0,
        }
    }
}
