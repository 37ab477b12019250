//! A frame, sent to a chip, and how long it is.
ghost use Rattle.std.specs.Prelude.{◌≡◌, [], length};
ghost use Rattle.wire.specs.Fields.{samples_in};
ghost use Rattle.wire.specs.Frames.{opening};
ghost use Rattle.wire.specs.Sent.{Sends};

use crate::frame::Frame;
use crate::signals;
use chips::chip::Chip;

// How many idle samples end a frame.
const REST: usize = 1;

impl Frame {
    // The number of its samples: CS alone, two for the start bit and for each other bit, CS alone, and rest.
    #[tactic(auto, using(crate::proofs::Lengths::length_frame))]
    pub fn length(self) -> usize
        ensures { result ≡ length (samples_in self) }
    {
        let bits = 1 + self.bits as usize + self.zeros as usize;
        1 + 2 * bits + 1 + REST
    }

    // CS alone, the start bit, and the bits of an instruction.
    #[tactic(auto, unfolding(crate::specs::Sent::told))]
    pub fn start<C: Chip>(self, chip: &mut C)
        ensures { Sends C.Chip chip.old chip.new (opening self.bits self.code []) }
    {
        let _ = signals::select(chip);
        let _ = signals::clock_bit(chip, true);
        signals::clock_bits(chip, self.bits as u32, self.code);
    }

    // The start, the zero bits of a READ, and the end.
    #[tactic(auto, using(crate::proofs::Clocking::joined))]
    pub fn send<C: Chip>(self, chip: &mut C)
        ensures { Sends C.Chip chip.old chip.new (samples_in self) }
    {
        self.start(chip);
        signals::clock_bits(chip, self.zeros, 0);
        signals::end_frame(chip);
    }
}
