//! A driver as a source of words for a list: a run from an address.
ghost use Rattle.driver.specs.Held.{held};
ghost use Rattle.driver.specs.Reads.{RunLeaves};

use crate::driver::Driver;
use chips::chip::Chip;
use protocol::refusal::Refusal;
use protocol::source::Source;

impl<C: Chip> Source<u16, u16> for Driver<C> {
    ghost fills = { λ s address old t words r. RunLeaves C.Chip.next address old (held C.Chip s) (held C.Chip t) words r };

    fn fill(&mut self, from: u16, places: &mut [u16]) -> Result<(), Refusal> {
        self.run(from, places)
    }
}
