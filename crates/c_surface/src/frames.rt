//! Frames into a buffer.
ghost use Rattle.std.specs.Prelude.{◌≡◌, not, ◌==◌, ok_or};
ghost use Rattle.protocol.specs.declared.refusal.Cause.TheVariants.{BadSettings};
ghost use Rattle.protocol.specs.Refusals.{refusal};
ghost use Rattle.frame_writer.specs.Written.{written};
ghost use Rattle.c_surface.specs.Filling.{instruction_from, framed, frame_buffer, frame_length, frame_answer};

use crate::answer::Answer;
use frame_writer::write_frame;
use protocol::instruction::Instruction;
use protocol::list::List;
use protocol::refusal::{Cause, Refusal};
use protocol::sample::Straps;

// The value is the word of a WRITE or WRALL, and the number of words of a READ. C names the kind by its number.
fn instruction_from(kind: u8, address: u16, value: u16) -> Result<Instruction, Refusal>
    ensures { result ≡ ok_or (instruction_from kind address value) (refusal BadSettings 0) }
{
    match kind {
        0 => Ok(Instruction::Read {
            address,
            words: value,
        }),
        1 => Ok(Instruction::Write { address, value }),
        2 => Ok(Instruction::Erase { address }),
        3 => Ok(Instruction::Wen),
        4 => Ok(Instruction::Wds),
        5 => Ok(Instruction::Eral),
        6 => Ok(Instruction::Wrall { value }),
        _ => Err(Cause::BadSettings.into()),
    }
}

// The length of the frame, at the front of the buffer. The part comes by its number, as C names it.
fn write_into(
    part: u8,
    straps: Straps,
    instruction: Instruction,
    samples: &mut [u8],
) -> Result<usize, Refusal>
    ensures length { result ≡ frame_length (written part straps.org straps.pe instruction) samples.old }
    ensures buffer { samples.new ≡ frame_buffer (written part straps.org straps.pe instruction) samples.old }
{
    let mut list = List::new(samples);
    write_frame(part, straps, instruction, &mut list)?;
    Ok(list.len())
}

// The frame of an instruction, at the front of the buffer. The length is that of the frame. C names part, levels and kind by numbers.
#[unsafe(no_mangle)]
pub extern "C" fn kippercrag_write_frame(
    part: u8,
    org: u8,
    pe: u8,
    kind: u8,
    address: u16,
    value: u16,
    samples: &mut [u8],
) -> Answer
    ensures answer { result ≡ frame_answer (framed part (not (org == 0)) (not (pe == 0)) (instruction_from kind address value)) samples.old }
    ensures buffer { samples.new ≡ frame_buffer (framed part (not (org == 0)) (not (pe == 0)) (instruction_from kind address value)) samples.old }
{
    let straps = Straps {
        org: org != 0,
        pe: pe != 0,
    };
    match instruction_from(kind, address, value) {
        Ok(instruction) => write_into(part, straps, instruction, samples).into(),
        Err(refusal) => Err(refusal).into(),
    }
}
