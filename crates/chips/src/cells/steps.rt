//! One sample after the other, inlined as the control's step is.
ghost use Rattle.std.specs.Prelude.{◌≡◌};
ghost use Rattle.chips.specs.Fits.{DecisionFits};
ghost use Rattle.chips.specs.Machine.{written, out_of, step};
ghost use Rattle.chips.specs.Meaning.{machine_with};
ghost use Rattle.chips.specs.Rewriting.{Rewritten};

use crate::cells::Cells;
use crate::chip::LOW;
use crate::control::Control;
use crate::state::{Decision, Verdict};
use crate::word::Word;
use protocol::instruction::Kind;
use protocol::sample::Sample;

impl Cells<'_> {
    // What a decision does to the bytes.
    fn change(&mut self, decision: Decision)
        requires { DecisionFits self.old.part decision }
        ensures { Rewritten self.old self.new (written self.old.part decision self.old.memory.now) }
    {
        if let Decision::Instruction {
            kind,
            width,
            cell,
            value,
            verdict: Verdict::CarriedOut,
        } = decision
        {
            match kind {
                Kind::Write => self.write(cell, Word { width, value }),
                Kind::Erase => self.write(cell, Word::ones(width)),
                Kind::Wrall => self.fill(Word { width, value }),
                Kind::Eral => self.fill(Word::ones(width)),
                Kind::Read | Kind::Wen | Kind::Wds => {}
            }
        }
    }

    // DO after a decision, with the control that made it, and DO before it; a number as `put` answers it.
    #[inline(always)]
    fn show(&self, control: &Control, out: u8, decision: Decision) -> u8
        requires { DecisionFits self.now.part decision }
        ensures { result ≡ out_of decision control.now.state self.now.memory.now out }
    {
        match decision {
            Decision::Address { .. } => LOW,
            Decision::Data { width, cell, next } => self.read(width, cell).bit(next),
            _ => control.hold(out),
        }
    }

    // One sample of a control over the bytes, with DO before it; the answer is DO after it, a number too.
    #[inline(always)]
    pub(crate) fn advance(&mut self, control: &mut Control, out: u8, s: Sample) -> u8
        requires { self.old.part ≡ control.old.setup.part }
        ensures machine { machine_with control.new self.new.memory.now result ≡ step (machine_with control.old self.old.memory.now out) s }
        ensures cells { Rewritten self.old self.new (step (machine_with control.old self.old.memory.now out) s).bytes }
        ensures setup { control.new.setup ≡ control.old.setup }
    {
        let decision = control.step(s);
        if let Decision::Nothing = decision {
            return control.hold(out);
        }
        let shown = self.show(control, out, decision);
        self.change(decision);
        shown
    }
}
