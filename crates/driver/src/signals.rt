//! Frames, polling and the words of a READ.
ghost use Rattle.std.specs.Prelude.{◌≡◌, ◌*◌, ◌≤◌, false, not, [], ◌∷◌, ◌++◌, length};
ghost use Rattle.protocol.specs.Parts.{bits_of};
ghost use Rattle.protocol.specs.declared.instruction.Instruction.TheVariants.{Read};
ghost use Rattle.chips.specs.Pins.{do_of};
ghost use Rattle.wire.specs.Frames.{selected, clock, clocks, rest, read_opening, frame_of};
ghost use Rattle.wire.specs.Hearing.{zero_bit, level_of, heard, words_heard};
ghost use Rattle.wire.specs.Polling.{shows_busy, tries, ready_in, polls, is_ready};
ghost use Rattle.wire.specs.Runs.{run};
ghost use Rattle.wire.specs.Sent.{Sends};
ghost use Rattle.driver.specs.Calls.{found};

use chips::chip::{Chip, HIGH, LOW};
use protocol::instruction::Instruction;
use protocol::parts::{Organisation, Width};
use protocol::refusal::{Cause, Refusal};
use wire::frame::Frame;
use wire::polling::most_tries;
use wire::signals::{clock_bit, end, end_frame, select};

// The frame of an instruction.
pub(crate) fn send<C: Chip>(chip: &mut C, organisation: Organisation, instruction: Instruction)
    ensures { Sends C.Chip chip.old chip.new (frame_of organisation.part organisation.width instruction) }
{
    Frame::new(organisation, instruction).send(chip);
}

// One look at a chip that may be programming: is it ready? DO is low while it shows busy.
fn look<C: Chip>(chip: &mut C) -> bool
    ensures ready { result ≡ not (shows_busy (C.Chip.meaning chip.old)) }
    ensures sent { Sends C.Chip chip.old chip.new (selected ∷ []) }
{
    select(chip) != LOW
}

// Looks until the chip is ready, at most so many times; one that is not ready then is refused for the cause given.
#[tactic(auto, using(crate::proofs::Steps::looks))]
fn wait<C: Chip>(chip: &mut C, most: u16, cause: Cause) -> Result<(), Refusal>
    ensures answer { result ≡ found cause (ready_in most (C.Chip.meaning chip.old)) }
    ensures sent { Sends C.Chip chip.old chip.new (tries most (C.Chip.meaning chip.old)) }
{
    // tried by `any`: what a closure leaves behind the `&mut` that it holds stays unknown, and the proof of `sent` does not close
    for _ in 0..most {
        if look(chip) {
            return Ok(());
        }
    }
    Err(cause.into())
}

#[tactic(auto, using(crate::proofs::Framing::frames))]
fn wait_and_end<C: Chip>(chip: &mut C, most: u16, cause: Cause) -> Result<(), Refusal>
    ensures answer { result ≡ found cause (ready_in most (C.Chip.meaning chip.old)) }
    ensures sent { Sends C.Chip chip.old chip.new (tries most (C.Chip.meaning chip.old) ++ rest) }
{
    // the chip is brought to rest whatever was found, so that no `?` stands here
    let answer = wait(chip, most, cause);
    end(chip);
    answer
}

// Polling: a chip that is still programming is refused for the cause given.
pub(crate) fn poll<C: Chip>(chip: &mut C, cause: Cause) -> Result<(), Refusal>
    ensures answer { result ≡ found cause (is_ready (C.Chip.meaning chip.old)) }
    ensures sent { Sends C.Chip chip.old chip.new (polls (C.Chip.meaning chip.old)) }
{
    wait_and_end(chip, most_tries(), cause)
}

// A zero bit, and the bit that comes out under it.
#[tactic(auto, unfolding(wire::specs::Sent::told))]
fn hear_bit<C: Chip>(chip: &mut C) -> u16
    ensures bit { result ≡ level_of (do_of (zero_bit (C.Chip.meaning chip.old))) }
    ensures sent { Sends C.Chip chip.old chip.new (clock false []) }
{
    u16::from(clock_bit(chip, false) == HIGH)
}

// Zero bits, and the number whose bits come out meanwhile.
#[tactic(auto, using(crate::proofs::Steps::hears))]
fn hear_bits<C: Chip>(chip: &mut C, count: u8) -> u16
    requires { count ≤ 16 }
    ensures word { result ≡ heard count 0 (C.Chip.meaning chip.old) }
    ensures sent { Sends C.Chip chip.old chip.new (clocks count 0 []) }
{
    let mut word: u16 = 0;
    for _ in 0..count {
        word = 2 * word + hear_bit(chip);
    }
    word
}

fn hear_word<C: Chip>(chip: &mut C, width: Width) -> u16
    ensures word { result ≡ heard (bits_of width) 0 (C.Chip.meaning chip.old) }
    ensures sent { Sends C.Chip chip.old chip.new (clocks (bits_of width) 0 []) }
{
    hear_bits(chip, width.bits())
}

// As many words as there is room for.
#[tactic(auto, using(crate::proofs::Steps::words))]
fn hear_words<C: Chip>(chip: &mut C, width: Width, words: &mut [u16])
    ensures heard { words.new ≡ words_heard (bits_of width) (length words.old) (C.Chip.meaning chip.old) }
    ensures sent { Sends C.Chip chip.old chip.new (clocks (length words.old * bits_of width) 0 []) }
{
    for word in words.iter_mut() {
        *word = hear_word(chip, width);
    }
}

// A READ of as many words as there is room for.
#[tactic(auto, using(crate::proofs::Framing::frames))]
pub(crate) fn fetch<C: Chip>(
    chip: &mut C,
    organisation: Organisation,
    address: u16,
    words: &mut [u16],
)
    ensures heard { words.new ≡ words_heard (bits_of organisation.width) (length words.old) (run (C.Chip.meaning chip.old) (read_opening organisation.part organisation.width address [])) }
    ensures sent { Sends C.Chip chip.old chip.new (frame_of organisation.part organisation.width (Read address (length words.old))) }
{
    let opening = Instruction::Read { address, words: 0 };
    Frame::new(organisation, opening).start(chip);
    hear_words(chip, organisation.width, words);
    end_frame(chip);
}
