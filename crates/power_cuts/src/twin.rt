//! A chip with a twin whose supply fails.
ghost use Rattle.chips.specs.Seen.{seen};
ghost use Rattle.power_cuts.specs.Twin.{Twinned, twin_after};

use chips::chip::Chip;

// Every sample goes to the chip, and the first `left` of them to the twin too, as if its supply failed then.
#[derive(Drop)]
pub(crate) struct WithTwin<C: Chip, D: Chip> {
    pub(crate) chip: C,
    pub(crate) twin: D,
    pub(crate) left: usize,
    // a sample has come that did not reach the twin
    pub(crate) cut: bool,
}

impl<C: Chip, D: Chip> Chip for WithTwin<C, D> {
    ghost meaning = { λ c. C.Chip.meaning c.chip };

    ghost View = { Twinned C.Chip.View D.Chip.View };

    ghost view = { λ c. record { view = C.Chip.view c.chip; twin = seen D.Chip.view D.Chip.meaning c.twin; left = c.left; cut = c.cut } };

    ghost next = { twin_after C.Chip.next D.Chip.next };

    fn facts(&self) -> (u8, u8, u8) {
        self.chip.facts()
    }

    fn put(&mut self, cs: bool, sk: bool, di: bool) -> u8 {
        if self.left == 0 {
            self.cut = true;
        } else {
            self.left -= 1;
            let _ = self.twin.put(cs, sk, di);
        }
        self.chip.put(cs, sk, di)
    }
}
