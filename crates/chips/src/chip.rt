//! What every chip promises.
ghost use Rattle.std.specs.Prelude.{◌≡◌};
ghost use Rattle.chips.specs.Pins.{Pins, Put, put as levels, put_on, do_of, facts_of};
ghost use Rattle.chips.specs.Fitting.{Fitting};
ghost use Rattle.chips.specs.Seen.{seen, stepped};

// The levels of DO, as `put` answers them.
pub const LOW: u8 = 0;

pub const HIGH: u8 = 1;

pub const HIGH_IMPEDANCE: u8 = 2;

// A chip on its pins, by the pin machine that it means.
pub trait Chip {
    ghost meaning: { Self → Pins };

    // what the chip itself keeps of the samples put into it, of a type of its own, and how one more changes that
    ghost View: { Type 0 };

    ghost view: { Self → View };

    ghost next: { View → Pins → Put → View };

    // The part's number, and the levels of ORG and PE: three numbers together, by a rule of the project.
    fn facts(&self) -> (u8, u8, u8)
        ensures told { result ≡ facts_of (meaning self.now) }
        ensures fits { Fitting (meaning self.now) };

    // One sample; the answer is DO, a number since DO buffers hold these bytes.
    fn put(&mut self, cs: bool, sk: bool, di: bool) -> u8
        ensures steps { seen view meaning self.new ≡ stepped next (seen view meaning self.old) (levels cs sk di) }
        ensures answers { result ≡ do_of (put_on (meaning self.old) (levels cs sk di)) };
}
