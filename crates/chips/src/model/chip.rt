//! A model on its pins.
ghost use Rattle.std.specs.Prelude.{◌≡◌, true};
ghost use Rattle.chips.specs.Fitting.{are_bytes, Fitting};
ghost use Rattle.chips.specs.Pins.{put as levels, put_on, do_of, facts_of};
ghost use Rattle.chips.specs.Meaning.{pins_of};

use crate::cells::Cells;
use crate::chip::HIGH_IMPEDANCE;
use crate::model::Model;

// Every byte is below 256: the type says so, of a slice that is passed.
#[tactic(auto, using(crate::proofs::Small::bytes_small))]
fn know_bytes(memory: &[u8])
    ensures { are_bytes memory.now ≡ true }
{}

impl Model<'_> {
    // What a chip of either edition tells.
    #[tactic(auto, unfolding(crate::specs::Pins::org_on, crate::specs::Pins::pe_on))]
    pub(crate) fn facts(&self) -> (u8, u8, u8)
        ensures told { result ≡ facts_of (pins_of self.now) }
        ensures fits { Fitting (pins_of self.now) }
    {
        know_bytes(self.memory);
        match &self.live {
            None => (0, 0, 0),
            Some(live) => (
                live.control.setup().part.row().number,
                live.straps.org as u8,
                live.straps.pe as u8,
            ),
        }
    }

    // One sample, on a chip of either edition.
    #[tactic(auto, unfolding(crate::specs::Pins::put_on))]
    pub(crate) fn put(&mut self, cs: bool, sk: bool, di: bool) -> u8
        ensures pins { pins_of self.new ≡ put_on (pins_of self.old) (levels cs sk di) }
        ensures answers { result ≡ do_of (put_on (pins_of self.old) (levels cs sk di)) }
        ensures lender { self.new.memory.ghost_name ≡ self.old.memory.ghost_name }
    {
        match &mut self.live {
            None => HIGH_IMPEDANCE,
            Some(live) => {
                let sample = live.straps.sample(cs, sk, di);
                // as in the trace call: a function for these lines would have to say what becomes of the loan that it hands on
                let memory = &mut *self.memory;
                let part = live.control.setup().part;
                let mut cells = Cells { memory, part };
                live.out = cells.advance(&mut live.control, live.out, sample);
                live.out
            }
        }
    }
}
