//! What happens to a state beside its phase, and verdicts as numbers.
ghost use Rattle.std.specs.Prelude.{◌≡◌};
ghost use Rattle.chips.specs.Control.{aged, begun, rested};
ghost use Rattle.chips.specs.Verdicts.{verdict_number};

use crate::state::{Phase, State, Verdict};
use protocol::settings::Edition;

impl State {
    // A cycle has one sample less to go.
    pub(crate) fn age(&mut self)
        ensures { self.new ≡ aged self.old }
    {
        self.left = self.left.saturating_sub(1);
    }

    // Begins the cycle of a change that is not turned down.
    pub(crate) fn begin(&mut self, edition: Edition, cycle: u16, verdict: Verdict)
        ensures { self.new ≡ begun edition cycle verdict self.old }
    {
        if verdict == Verdict::CarriedOut {
            self.left = cycle;
            if edition == Edition::Clock {
                self.status = true;
            }
        }
    }

    // The chip waits, with status off.
    pub(crate) fn rest(&mut self)
        ensures { self.new ≡ rested self.old }
    {
        self.status = false;
        self.phase = Phase::Waiting;
    }
}

// The number of a verdict in a listing.
impl From<Verdict> for u8 {
    ghost from_gives = { λ verdict number. number ≡ verdict_number verdict };

    fn from(verdict: Verdict) -> u8 {
        verdict as u8
    }
}
