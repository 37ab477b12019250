//! A chip that is lent is a chip.
ghost use Rattle.std.specs.Prelude.{ℕ};

use crate::chip::Chip;

// It keeps whose it is, which no sample changes, and what the chip itself keeps.
impl<C: Chip> Chip for &mut C {
    ghost meaning = { λ c. C.Chip.meaning c.now };

    ghost View = { ℕ × C.Chip.View };

    ghost view = { λ c. (c.ghost_name, C.Chip.view c.now) };

    ghost next = { λ v p x. (v.0, C.Chip.next v.1 p x) };

    fn facts(&self) -> (u8, u8, u8) {
        (**self).facts()
    }

    fn put(&mut self, cs: bool, sk: bool, di: bool) -> u8 {
        (**self).put(cs, sk, di)
    }
}
