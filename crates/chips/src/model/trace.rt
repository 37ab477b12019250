//! The trace call: sample bytes, each with its own levels of ORG and PE.
ghost use Rattle.std.specs.Prelude.{◌≡◌, length};
ghost use Rattle.chips.specs.Machine.{run_on, outs};
ghost use Rattle.chips.specs.Rewriting.{Rewritten};
ghost use Rattle.chips.specs.Meaning.{machine_with, pins_of};
ghost use Rattle.chips.specs.Traced.{trace_checked, trace_answer, trace_pins, trace_outs};

use crate::cells::Cells;
use crate::live::Live;
use crate::model::Model;
use protocol::refusal::{Cause, Refusal};
use protocol::sample::{Sample, check_samples};

// What stands in the way of a trace: a sample above 31, a buffer of another length.
pub fn check_trace(samples: &[u8], size: usize) -> Result<(), Refusal>
    ensures { result ≡ trace_checked samples.now size }
{
    check_samples(samples)?;
    if size != samples.len() {
        return Err(Cause::BufferLength.into());
    }
    Ok(())
}

impl Live {
    // Control and DO are kept in locals, so that they can stay in registers.
    #[tactic(auto, unfolding(crate::specs::Machine::run_on, crate::specs::Machine::outs))]
    fn run(&mut self, cells: &mut Cells, samples: &[u8], levels: &mut [u8])
        requires own { cells.old.part ≡ self.old.control.setup.part }
        requires size { length levels.old ≡ length samples.now }
        ensures machine { machine_with self.new.control cells.new.memory.now self.new.out ≡ run_on (machine_with self.old.control cells.old.memory.now self.old.out) samples.now }
        ensures levels { levels.new ≡ outs (machine_with self.old.control cells.old.memory.now self.old.out) samples.now }
        ensures setup { self.new.control.setup ≡ self.old.control.setup }
        ensures straps { self.new.straps ≡ self.old.straps }
        ensures cells { Rewritten cells.old cells.new (run_on (machine_with self.old.control cells.old.memory.now self.old.out) samples.now).bytes }
    {
        let mut control = self.control;
        let mut out = self.out;
        // tried by `zip` with the buffer's `iter_mut`: what it leaves in the buffer stays unknown, and the proof does not close
        for (place, byte) in samples.iter().enumerate() {
            out = cells.advance(&mut control, out, Sample::from(*byte));
            levels[place] = out;
        }
        self.control = control;
        self.out = out;
    }
}

impl Model<'_> {
    // Puts each sample in and fills the buffer with the levels of DO. A refusal leaves chip and buffer as they were.
    pub fn run_trace(&mut self, samples: &[u8], levels: &mut [u8]) -> Result<(), Refusal>
        ensures answer { result ≡ trace_answer (pins_of self.old) samples.now (length levels.old) }
        ensures chip { pins_of self.new ≡ trace_pins result (pins_of self.old) samples.now }
        ensures buffer { levels.new ≡ trace_outs result (pins_of self.old) samples.now levels.old }
        ensures lender { self.new.memory.ghost_name ≡ self.old.memory.ghost_name }
    {
        match &mut self.live {
            None => Err(Cause::BlankChip.into()),
            Some(live) => {
                check_trace(samples, levels.len())?;
                // as in `put`, where it is said why no function stands for these lines
                let memory = &mut *self.memory;
                let part = live.control.setup().part;
                let mut cells = Cells { memory, part };
                live.run(&mut cells, samples, levels);
                Ok(())
            }
        }
    }
}
