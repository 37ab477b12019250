//! The ten calls.
ghost use Rattle.std.specs.Prelude.{◌≡◌, true, false, [], ◌∷◌, length, Ok, IfOk, OnOk, OnErr};
ghost use Rattle.std.specs.Result.{result_and};
ghost use Rattle.protocol.specs.declared.instruction.Instruction.TheVariants.{Write, Erase, Wen, Wds, Eral, Wrall};
ghost use Rattle.driver.specs.Calls.{polled, open_chip, shut_chip, turned, changed};
ghost use Rattle.driver.specs.Calls as calls;
ghost use Rattle.driver.specs.Cases.{Greet, Settle, Latch, Fetch, Change, words_of, Follows, BusyIffLong};
ghost use Rattle.driver.specs.Held.{held};
ghost use Rattle.driver.specs.Outcome.{outcome};
ghost use Rattle.driver.specs.Reads.{read_word, run_words, filled};

use crate::driver::Driver;
use crate::signals;
use chips::chip::Chip;
use protocol::instruction::Instruction;
use protocol::refusal::{Cause, Refusal};
use wire::signals::idle;

impl<C: Chip> Driver<C> {
    // Polls; a chip that is still programming is refused for the cause given.
    fn poll(&mut self, cause: Cause) -> Result<(), Refusal>
        ensures { outcome result (held C.Chip self.new) ≡ polled C.Chip.next cause (held C.Chip self.old) }
    {
        signals::poll(&mut self.chip, cause)
    }

    // Brings a chip in any state to rest, shut for writing.
    #[tactic(auto, using(wire::proofs::Tells::keeps, crate::proofs::Parts::greeting))]
    pub fn greet(&mut self) -> Result<(), Refusal>
        ensures outcome { outcome result (held C.Chip self.new) ≡ calls.greet C.Chip.next (held C.Chip self.old) }
        ensures follows { Follows C.Chip Greet self.old self.new result }
    {
        let (organisation, _) = self.shape()?;
        idle(&mut self.chip);
        self.poll(Cause::Busy)?;
        signals::send(&mut self.chip, organisation, Instruction::Wds);
        self.greeted = true;
        self.opened = false;
        Ok(())
    }

    // Waits for the end of a programming cycle.
    #[tactic(auto, using(crate::proofs::Parts::settling, crate::proofs::Parts::readiness))]
    pub fn settle(&mut self) -> Result<(), Refusal>
        ensures outcome { outcome result (held C.Chip self.new) ≡ calls.settle C.Chip.next (held C.Chip self.old) }
        ensures follows { Follows C.Chip Settle self.old self.new result }
        ensures busy { BusyIffLong (held C.Chip self.old) result }
    {
        // WDS has no input to judge
        self.admit(Instruction::Wds)?;
        self.poll(Cause::Busy)
    }

    // Sends WEN or WDS, and keeps in the record which.
    #[tactic(auto, using(wire::proofs::Tells::keeps))]
    fn turn(&mut self, opened: bool, instruction: Instruction) -> Result<(), Refusal>
        ensures { outcome result (held C.Chip self.new) ≡ turned C.Chip.next opened instruction (held C.Chip self.old) }
    {
        let organisation = self.admit(instruction)?;
        self.poll(Cause::Busy)?;
        signals::send(&mut self.chip, organisation, instruction);
        self.opened = opened;
        Ok(())
    }

    // Opens the chip for changes.
    #[tactic(auto, using(crate::proofs::Parts::turning))]
    pub fn open(&mut self) -> Result<(), Refusal>
        ensures outcome { outcome result (held C.Chip self.new) ≡ open_chip C.Chip.next (held C.Chip self.old) }
        ensures follows { Follows C.Chip (Latch true Wen) self.old self.new result }
    {
        self.turn(true, Instruction::Wen)
    }

    #[tactic(auto, using(crate::proofs::Parts::turning))]
    pub fn shut(&mut self) -> Result<(), Refusal>
        ensures outcome { outcome result (held C.Chip self.new) ≡ shut_chip C.Chip.next (held C.Chip self.old) }
        ensures follows { Follows C.Chip (Latch false Wds) self.old self.new result }
    {
        self.turn(false, Instruction::Wds)
    }

    // The word in one cell.
    #[tactic(auto, using(crate::proofs::Parts::fetching))]
    pub fn read(&mut self, address: u16) -> Result<u16, Refusal>
        ensures outcome { outcome result (held C.Chip self.new) ≡ read_word C.Chip.next address (held C.Chip self.old) }
        ensures follows { Follows C.Chip (Fetch address 1) self.old self.new (result_and result (Ok tt)) }
        ensures word { IfOk result (λ w. words_of address 1 (held C.Chip self.old) ≡ w ∷ []) }
    {
        let mut word = [0; 1];
        self.run(address, &mut word)?;
        Ok(word[0])
    }

    // Sends a READ of as many words as there is room for.
    #[tactic(auto, using(wire::proofs::Tells::keeps))]
    fn fetch(&mut self, address: u16, words: &mut [u16]) -> Result<(), Refusal>
        ensures outcome { outcome result (held C.Chip self.new) ≡ run_words C.Chip.next address (length words.old) (held C.Chip self.old) }
        ensures words { words.new ≡ filled C.Chip.next address (length words.old) words.old (held C.Chip self.old) }
    {
        let organisation = self.admit_read(address, words.len())?;
        self.poll(Cause::Busy)?;
        signals::fetch(&mut self.chip, organisation, address, words);
        Ok(())
    }

    // Fills the words from consecutive cells, with cell 0 after the last. A refusal leaves them as they are.
    #[tactic(auto, using(crate::proofs::Parts::fetching))]
    pub fn run(&mut self, address: u16, words: &mut [u16]) -> Result<(), Refusal>
        ensures outcome { outcome result (held C.Chip self.new) ≡ run_words C.Chip.next address (length words.old) (held C.Chip self.old) }
        ensures words { words.new ≡ filled C.Chip.next address (length words.old) words.old (held C.Chip self.old) }
        ensures follows { Follows C.Chip (Fetch address (length words.old)) self.old self.new result }
        ensures handed { OnOk result (words.new ≡ words_of address (length words.old) (held C.Chip self.old)) }
        ensures untouched { OnErr result (words.new ≡ words.old) }
    {
        self.fetch(address, words)
    }

    // Sends an instruction that changes cells, and waits for the end of its cycle.
    #[tactic(auto, using(wire::proofs::Tells::keeps))]
    fn change(&mut self, instruction: Instruction) -> Result<(), Refusal>
        ensures { outcome result (held C.Chip self.new) ≡ changed C.Chip.next instruction (held C.Chip self.old) }
    {
        let organisation = self.admit_change(instruction)?;
        self.poll(Cause::Busy)?;
        signals::send(&mut self.chip, organisation, instruction);
        self.poll(Cause::Unfinished)
    }

    #[tactic(auto, using(crate::proofs::Parts::changing))]
    pub fn write(&mut self, address: u16, value: u16) -> Result<(), Refusal>
        ensures outcome { outcome result (held C.Chip self.new) ≡ changed C.Chip.next (Write address value) (held C.Chip self.old) }
        ensures follows { Follows C.Chip (Change (Write address value)) self.old self.new result }
    {
        self.change(Instruction::Write { address, value })
    }

    // One cell to all ones.
    #[tactic(auto, using(crate::proofs::Parts::changing))]
    pub fn erase(&mut self, address: u16) -> Result<(), Refusal>
        ensures outcome { outcome result (held C.Chip self.new) ≡ changed C.Chip.next (Erase address) (held C.Chip self.old) }
        ensures follows { Follows C.Chip (Change (Erase address)) self.old self.new result }
    {
        self.change(Instruction::Erase { address })
    }

    // Every cell to one value.
    #[tactic(auto, using(crate::proofs::Parts::changing))]
    pub fn fill(&mut self, value: u16) -> Result<(), Refusal>
        ensures outcome { outcome result (held C.Chip self.new) ≡ changed C.Chip.next (Wrall value) (held C.Chip self.old) }
        ensures follows { Follows C.Chip (Change (Wrall value)) self.old self.new result }
    {
        self.change(Instruction::Wrall { value })
    }

    // Every cell to all ones.
    #[tactic(auto, using(crate::proofs::Parts::changing))]
    pub fn clear(&mut self) -> Result<(), Refusal>
        ensures outcome { outcome result (held C.Chip self.new) ≡ changed C.Chip.next Eral (held C.Chip self.old) }
        ensures follows { Follows C.Chip (Change Eral) self.old self.new result }
    {
        self.change(Instruction::Eral)
    }
}
