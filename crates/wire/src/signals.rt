//! Samples put on the pins of a chip.
ghost use Rattle.std.specs.Prelude.{◌≡◌, [], ◌∷◌};
ghost use Rattle.chips.specs.Pins.{do_of, put_on};
ghost use Rattle.wire.specs.Frames as frames;
ghost use Rattle.wire.specs.Frames.{selected, clock, clocks, rest, ending};
ghost use Rattle.wire.specs.Sent.{Sends};

use chips::chip::Chip;

// One idle sample.
#[tactic(auto, unfolding(crate::specs::Sent::told))]
pub fn idle<C: Chip>(chip: &mut C)
    ensures { Sends C.Chip chip.old chip.new (frames.idle ∷ []) }
{
    let _ = chip.put(false, false, false);
}

// What ends a frame and a polling.
pub fn end<C: Chip>(chip: &mut C)
    ensures { Sends C.Chip chip.old chip.new rest }
{
    idle(chip);
}

// CS alone high; the answer is DO, a number as `put` answers it.
#[tactic(auto, unfolding(crate::specs::Sent::told))]
pub fn select<C: Chip>(chip: &mut C) -> u8
    ensures sent { Sends C.Chip chip.old chip.new (selected ∷ []) }
    ensures answer { result ≡ do_of (put_on (C.Chip.meaning chip.old) selected) }
{
    chip.put(true, false, false)
}

// One bit, with SK low and then high; the answer is DO with SK high, a number as `put` answers it.
#[tactic(auto, unfolding(crate::specs::Sent::told))]
pub fn clock_bit<C: Chip>(chip: &mut C, bit: bool) -> u8
    ensures sent { Sends C.Chip chip.old chip.new (clock bit []) }
    ensures answer { result ≡ do_of (C.Chip.meaning chip.new) }
{
    let _ = chip.put(true, false, bit);
    chip.put(true, true, bit)
}

// Is this bit of a number set?
#[tactic(auto, using(crate::proofs::Shifting::no_bit))]
fn bit_at(code: u64, n: u32) -> bool
    ensures { result ≡ frames.bit_at code n }
{
    n < 64 && (code >> n) % 2 == 1
}

// The lowest bits of a number, the highest first.
#[tactic(auto, using(crate::proofs::Clocking::bits))]
pub(crate) fn clock_bits<C: Chip>(chip: &mut C, count: u32, code: u64)
    ensures { Sends C.Chip chip.old chip.new (clocks count code []) }
{
    for place in (0..count).rev() {
        let _ = clock_bit(chip, bit_at(code, place));
    }
}

// CS alone, and the end.
#[tactic(auto, unfolding(crate::specs::Sent::told))]
pub fn end_frame<C: Chip>(chip: &mut C)
    ensures { Sends C.Chip chip.old chip.new ending }
{
    let _ = select(chip);
    end(chip);
}
