//! What a call is refused for before anything is sent, in the order of judging. What is let through may be sent to the part at
//! the width in force.
ghost use Rattle.std.specs.Prelude.{◌≡◌, Ok};
ghost use Rattle.protocol.specs.declared.instruction.Instruction.TheVariants.{Read};
ghost use Rattle.driver.specs.Checks.{not_blank, inputs, admitted, changeable};
ghost use Rattle.driver.specs.Shapes.{shape_on, let_through};

use crate::driver::Driver;
use chips::chip::Chip;
use protocol::instruction::Instruction;
use protocol::parts::{Organisation, Part};
use protocol::refusal::{Cause, Refusal};

impl<C: Chip> Driver<C> {
    // The part at the width in force, and PE.
    #[tactic(auto, unfolding(chips::specs::Pins::org_on))]
    pub(crate) fn shape(&self) -> Result<(Organisation, bool), Refusal>
        ensures { result ≡ shape_on (C.Chip.meaning self.now.chip) }
    {
        // the facts are three numbers by a rule of the project; the walkthrough's recorder makes these two tests too, in as many lines
        let (number, org, pe) = self.chip.facts();
        let part = Part::try_from(number).map_err(|_| Cause::BlankChip)?;
        Ok((part.organised(part.width(org == 1)), pe == 1))
    }

    // What the instruction is given, on this chip.
    fn judge(&self, instruction: Instruction) -> Result<Organisation, Refusal>
        ensures { result ≡ let_through (C.Chip.meaning self.now.chip) (not_blank (C.Chip.meaning self.now.chip) (inputs (C.Chip.meaning self.now.chip) instruction (Ok tt))) }
    {
        let (organisation, _) = self.shape()?;
        organisation.check(instruction)?;
        Ok(organisation)
    }

    // A call that changes no cell.
    #[tactic(auto, using(crate::proofs::Judging::input_first))]
    pub(crate) fn admit(&self, instruction: Instruction) -> Result<Organisation, Refusal>
        ensures { result ≡ let_through (C.Chip.meaning self.now.chip) (admitted (C.Chip.meaning self.now.chip) self.now.greeted instruction) }
    {
        let organisation = self.judge(instruction)?;
        if !self.greeted {
            return Err(Cause::NotGreeted.into());
        }
        Ok(organisation)
    }

    // A read of so many words.
    #[tactic(auto, using(crate::proofs::Judging::cut))]
    pub(crate) fn admit_read(&self, address: u16, count: usize) -> Result<Organisation, Refusal>
        ensures { result ≡ let_through (C.Chip.meaning self.now.chip) (admitted (C.Chip.meaning self.now.chip) self.now.greeted (Read address count)) }
    {
        // a count that is cut stays above the cells of every part
        let words = count.min(u16::MAX as usize) as u16;
        self.admit(Instruction::Read { address, words })
    }

    // A call that changes cells.
    #[tactic(auto, using(crate::proofs::Judging::input_first))]
    pub(crate) fn admit_change(&self, instruction: Instruction) -> Result<Organisation, Refusal>
        ensures { result ≡ let_through (C.Chip.meaning self.now.chip) (changeable (C.Chip.meaning self.now.chip) self.now.greeted self.now.opened instruction) }
    {
        let organisation = self.admit(instruction)?;
        if !self.opened {
            return Err(Cause::Shut.into());
        }
        let (_, pe) = self.shape()?;
        if !pe {
            return Err(Cause::Protected.into());
        }
        Ok(organisation)
    }
}
