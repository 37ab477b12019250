//! A driver takes a chip, one that is lent or one of its own, and gives it back.
ghost use Rattle.std.specs.Prelude.{◌≡◌, false};
ghost use Rattle.driver.specs.Held.{held};
ghost use Rattle.driver.specs.Outcome.{state};
ghost use Rattle.chips.specs.Seen.{seen};

use crate::driver::Driver;
use chips::chip::Chip;

impl<C: Chip> Driver<C> {
    // A driver that has not greeted its chip.
    pub fn new(chip: C) -> Driver<C>
        ensures held { held C.Chip result ≡ state false false (seen C.Chip.view C.Chip.meaning chip) }
        ensures chip { result.chip ≡ chip }
    {
        Driver {
            chip,
            greeted: false,
            opened: false,
        }
    }

    // The chip as it stands, to look at.
    pub fn get_ref(&self) -> &C
        ensures { result.now ≡ self.now.chip }
    {
        &self.chip
    }

    // The chip, given back.
    pub fn chip(self) -> C
        ensures { result ≡ self.chip }
    {
        let Driver { chip, .. } = self;
        chip
    }
}
