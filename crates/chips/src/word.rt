//! The word of a cell.
ghost use Rattle.std.specs.Prelude.{◌≡◌, ◌<◌, ◌≤◌};
ghost use Rattle.protocol.specs.Parts.{bits_of, ones_of};
ghost use Rattle.chips.specs.Machine.{data_bit};

use protocol::parts::Width;

#[derive(Clone, Copy, Drop)]
pub(crate) struct Word {
    pub(crate) width: Width,
    pub(crate) value: u16,
    ghost fits: { value ≤ ones_of width },
}

impl Word {
    pub(crate) fn ones(width: Width) -> Word
        ensures width { result.width ≡ width }
        ensures value { result.value ≡ ones_of width }
    {
        Word {
            width,
            value: width.ones(),
        }
    }

    // The bit that comes after `next` others, highest first; a number as `put` answers it.
    #[inline(always)]
    pub(crate) fn bit(self, next: u8) -> u8
        requires { next < bits_of self.width }
        ensures { result ≡ data_bit self.width self.value next }
    {
        ((self.value >> (self.width.bits() - 1 - next)) % 2) as u8
    }
}
