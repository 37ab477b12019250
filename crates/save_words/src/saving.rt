//! Words into a chip, by its driver.
ghost use Rattle.std.specs.Prelude.{◌≡◌};
ghost use Rattle.driver.specs.Held.{held};
ghost use Rattle.driver.specs.Outcome.{outcome};
ghost use Rattle.save_words.specs.Saving.{save_outcome};

use crate::pair::Pair;
use chips::chip::Chip;
use driver::driver::Driver;
use protocol::refusal::Refusal;

// Opens the chip, writes each pair and shuts the chip again. A refusal ends it: what was written before
// stays, and an open chip stays open.
#[tactic(auto, using(crate::proofs::Saves::writes_none))]
pub fn save<C: Chip>(driver: &mut Driver<C>, pairs: &[Pair]) -> Result<(), Refusal>
    ensures saved { outcome result (held C.Chip driver.new) ≡ save_outcome C.Chip.next pairs.now (held C.Chip driver.old) }
{
    driver.greet()?;
    driver.open()?;
    for pair in pairs {
        driver.write(pair.address, pair.value)?;
    }
    driver.shut()
}

#[cfg(test)]
mod tests {
    use super::save;
    use crate::pair::Pair;
    use crate::{BYTES, CYCLES, PART};
    use chips::chip::Chip;
    use chips::fall::FallChip;
    use driver::driver::Driver;
    use protocol::refusal::{Cause, Refusal};
    use protocol::sample::Straps;

    fn save_into<C: Chip>(chip: &mut C, pairs: &[Pair]) -> Result<(), Refusal> {
        let mut driver = Driver::new(chip);
        save(&mut driver, pairs)
    }

    fn pair(address: u16, value: u16) -> Pair {
        Pair { address, value }
    }

    // A 46 has no cell 64: the cell written before is kept, and no later one is written.
    #[test]
    fn address_is_refused(rt: HostRuntime) {
        let mut memory = [255u8; BYTES];
        let pairs = [pair(0, 1000), pair(64, 1001), pair(1, 1002)];
        {
            let mut chip = FallChip::new(&mut memory, PART, CYCLES, Straps::HIGH);
            assert_eq!(rt; save_into(&mut chip, &pairs), Err(Cause::Address.at(0)));
        }
        // 1000 is 3 times 256 and 232
        let mut wanted = [255u8; BYTES];
        wanted[0] = 3;
        wanted[1] = 232;
        assert_eq!(rt; memory, wanted);
    }
}
