//! A control at power-up, and what can be asked of one.
ghost use Rattle.std.specs.Prelude.{◌≡◌};
ghost use Rattle.chips.specs.Control.{power_up};
ghost use Rattle.chips.specs.Machine.{held};

use crate::chip::{HIGH, HIGH_IMPEDANCE, LOW};
use crate::control::Control;
use crate::state::{Phase, State};
use protocol::settings::Setup;

impl Control {
    // A chip at power-up.
    pub fn new(setup: Setup) -> Control
        ensures setup { result.setup ≡ setup }
        ensures state { result.state ≡ power_up }
    {
        let state = State {
            enabled: false,
            left: 0,
            status: false,
            cs: false,
            sk: false,
            phase: Phase::Waiting,
        };
        Control { setup, state }
    }

    pub fn setup(&self) -> Setup
        ensures { result ≡ self.now.setup }
    {
        self.setup
    }

    // DO where no data bit comes, after a sample before which it was `out`; a number as `put` answers it.
    pub fn hold(&self, out: u8) -> u8
        ensures { result ≡ held self.now.state self.now.state.phase out }
    {
        match (self.state.phase, self.state.status) {
            (Phase::Reading { .. }, _) => out,
            (_, false) => HIGH_IMPEDANCE,
            (_, true) if self.state.left == 0 => HIGH,
            _ => LOW,
        }
    }
}
