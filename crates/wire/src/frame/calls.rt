//! The numbers of a frame.
ghost use Rattle.std.specs.Prelude.{◌≡◌, ◌*◌, ◌^◌, ◌<◌, ◌≤◌, if◌then◌else◌};
ghost use Rattle.protocol.specs.Instructions.{has_data};
ghost use Rattle.protocol.specs.Parts.{bits_of};
ghost use Rattle.wire.specs.Frames as frames;
ghost use Rattle.wire.specs.Fields.{count_in, code_in, zeros_in, samples_in};

use crate::frame::Frame;
use protocol::instruction::{Instruction, Kind};
use protocol::parts::{Organisation, Width};

// A function and no `From`: four kinds share opcode 0, so that it is no number of a kind, and Rust lets `wire` write no `From`
// between types of other crates.
fn opcode(kind: Kind) -> u64
    ensures is { result ≡ frames.opcode kind }
    ensures most { result ≤ 3 }
{
    match kind {
        Kind::Read => 0b10,
        Kind::Write => 0b01,
        Kind::Erase => 0b11,
        Kind::Wen | Kind::Wds | Kind::Eral | Kind::Wrall => 0b00,
    }
}

// A number whose one bit is bit n.
fn bit(n: u8) -> u64
    requires { n ≤ 16 }
    ensures is { result ≡ 2 ^ n }
    ensures most { result ≤ 65536 }
{
    1 << n
}

// The address bits; under opcode 00 the first two say the kind.
fn address_bits(size: u8, kind: Kind, address: u16) -> u64
    requires { (6 ≤ size) × (size ≤ 11) }
    ensures is { result ≡ frames.field_bits size kind address }
    ensures most { result ≤ 3 * 65536 }
{
    let first = bit(size - 2);
    match kind {
        Kind::Read | Kind::Write | Kind::Erase => address as u64,
        Kind::Wen => 0b11 * first,
        Kind::Wds => 0b00 * first,
        Kind::Eral => 0b10 * first,
        Kind::Wrall => 0b01 * first,
    }
}

// How many data bits there are, and the number that they are, by one test: `Organisation::length` makes it for the bits alone.
fn data_bits(width: Width, kind: Kind, value: u16) -> (u8, u64)
    ensures is { result ≡ ((if has_data kind then bits_of width else 0), (if has_data kind then value else 0)) }
    ensures few { result.0 ≤ 16 }
    ensures most { result.1 < 65536 }
{
    if kind.has_data() {
        (width.bits(), value as u64)
    } else {
        (0, 0)
    }
}

// The bits that follow the start bit, as a number: opcode, address and data.
#[tactic(auto, unfolding(crate::specs::Fields::code_in))]
fn code(organisation: Organisation, instruction: Instruction) -> u64
    ensures { result ≡ code_in organisation.part organisation.width instruction }
{
    let kind = instruction.kind();
    let size = organisation.field();
    let (bits, data) = data_bits(organisation.width, kind, instruction.value());
    let head = opcode(kind) * bit(size) + address_bits(size, kind, instruction.address());
    head * bit(bits) + data
}

// The words of a READ come out under zero bits.
fn zeros(width: Width, instruction: Instruction) -> u32
    ensures { result ≡ zeros_in width instruction }
{
    match instruction {
        Instruction::Read { words, .. } => words as u32 * width.bits() as u32,
        _ => 0,
    }
}

impl Frame {
    #[tactic(auto, using(crate::proofs::Whole::in_parts), unfolding(crate::specs::Fields::count_in))]
    pub fn new(organisation: Organisation, instruction: Instruction) -> Frame
        ensures is { samples_in result ≡ frames.frame_of organisation.part organisation.width instruction }
        ensures bits { result.bits ≡ count_in organisation.part organisation.width instruction }
        ensures few { result.bits ≤ 29 }
        ensures code { result.code ≡ code_in organisation.part organisation.width instruction }
    {
        Frame {
            bits: organisation.length(instruction.kind()),
            code: code(organisation, instruction),
            zeros: zeros(organisation.width, instruction),
        }
    }
}
