//! The frame of an instruction, as sample bytes.
#![tactic(auto)]

ghost use Rattle.frame_writer.specs.Written.{written, Writes};

use crate::writer::Writer;
use protocol::instruction::Instruction;
use protocol::list::List;
use protocol::parts::Part;
use protocol::refusal::Refusal;
use protocol::sample::Straps;
use wire::frame::Frame;

mod writer;

// Adds the frame of an instruction for a chip of this part, at these levels of ORG and PE, to the list.
// The part comes by its number: an enum would ask more of callers.
// A refusal leaves the list as it was.
pub fn write_frame(
    part: u8,
    straps: Straps,
    instruction: Instruction,
    samples: &mut List<u8>,
) -> Result<(), Refusal>
    ensures { Writes (written part straps.org straps.pe instruction) samples.old samples.new result }
{
    let part = Part::try_from(part)?;
    let organisation = part.organised(part.width(straps.org));
    organisation.check(instruction)?;
    let mut writer = Writer { samples, straps };
    writer.write(Frame::new(organisation, instruction))
}
