//! Refusals as numbers and as text.
ghost use Rattle.std.specs.Prelude.{◌≡◌, Some};
ghost use Rattle.protocol.specs.Refusals.{number_of, refusal, refusal_text};

use crate::refusal::{Cause, Refusal};
use std::error::Error;
use std::fmt;

impl Cause {
    // A refusal at a place.
    pub fn at(self, place: usize) -> Refusal
        ensures { result ≡ refusal self place }
    {
        Refusal { cause: self, place }
    }
}

// The number of a cause.
impl From<Cause> for u8 {
    ghost from_gives = { λ cause number. number ≡ number_of cause };

    fn from(cause: Cause) -> u8 {
        cause as u8
    }
}

// A refusal that has no place.
impl From<Cause> for Refusal {
    ghost from_gives = { λ cause r. r ≡ refusal cause 0 };

    fn from(cause: Cause) -> Refusal {
        cause.at(0)
    }
}

impl fmt::Display for Refusal {
    ghost output = { λ r. Some (refusal_text r) };

    fn fmt<W: fmt::Write>(&self, f: &mut fmt::Formatter<W>) -> fmt::Result {
        let number = u8::from(self.cause);
        let place = self.place;
        write!(f, "refused {number} at {place}")
    }
}

impl Error for Refusal {}
