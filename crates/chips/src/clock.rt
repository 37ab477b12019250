//! A chip of the clock edition.
ghost use Rattle.std.specs.Prelude.{◌≡◌, ℕ, length};
ghost use Rattle.protocol.specs.declared.settings.Edition.TheVariants.{Clock};
ghost use Rattle.chips.specs.Meaning.{pins_of};
ghost use Rattle.chips.specs.Powered.{OfEdition, powered, settings_in};
ghost use Rattle.chips.specs.Traced.{trace_answer, trace_pins, trace_outs};

use crate::chip::Chip;
use crate::model::Model;
use protocol::refusal::Refusal;
use protocol::sample::Straps;
use protocol::settings::{Cycles, Edition};

// A model that is of no other edition.
#[derive(Drop)]
pub struct ClockChip<'a> {
    model: Model<'a>,
    ghost edition: { OfEdition Clock (pins_of model) },
}

impl<'a> ClockChip<'a> {
    // At power-up; a blank where the part is not made in this edition, or the memory has not its size.
    #[tactic(auto, using(crate::proofs::Editions::powered_is))]
    pub fn new(memory: &'a mut [u8], part: u8, cycles: Cycles, straps: Straps) -> ClockChip<'a>
        ensures is { pins_of result.model ≡ powered (settings_in Clock part cycles) straps memory.old }
        ensures lender { result.model.memory.ghost_name ≡ memory.entry.ghost_name }
    {
        let model = Model::in_edition(memory, Edition::Clock, part, cycles, straps);
        ClockChip { model }
    }

    // The trace call, as `Model` has it.
    pub fn run_trace(&mut self, samples: &[u8], levels: &mut [u8]) -> Result<(), Refusal>
        ensures answer { result ≡ trace_answer (pins_of self.old.model) samples.now (length levels.old) }
        ensures chip { pins_of self.new.model ≡ trace_pins result (pins_of self.old.model) samples.now }
        ensures buffer { levels.new ≡ trace_outs result (pins_of self.old.model) samples.now levels.old }
        ensures lender { self.new.model.memory.ghost_name ≡ self.old.model.memory.ghost_name }
    {
        self.model.run_trace(samples, levels)
    }
}

impl Chip for ClockChip<'_> {
    ghost meaning = { λ c. pins_of c.model };

    // whose memory it has, which no sample changes
    ghost View = { ℕ };

    ghost view = { λ c. c.model.memory.ghost_name };

    ghost next = { λ lender _ _. lender };

    fn facts(&self) -> (u8, u8, u8) {
        self.model.facts()
    }

    fn put(&mut self, cs: bool, sk: bool, di: bool) -> u8 {
        self.model.put(cs, sk, di)
    }
}
