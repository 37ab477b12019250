//! What a chip that is not blank keeps beside its bytes.
ghost use Rattle.std.specs.Prelude.{◌≡◌, true};
ghost use Rattle.protocol.specs.Chosen.{is_offered};
ghost use Rattle.chips.specs.Control.{power_up};
ghost use Rattle.chips.specs.Levels.{high_impedance};
ghost use Rattle.chips.specs.Pins.{org_at, pe_at};

use crate::chip::HIGH_IMPEDANCE;
use crate::control::Control;
use protocol::parts::Part;
use protocol::sample::Straps;
use protocol::settings::{Edition, Setup};

// Its control, DO as the number that `put` answers, and the levels of ORG and PE.
#[derive(Clone, Copy)]
pub(crate) struct Live {
    pub(crate) control: Control,
    pub(crate) out: u8,
    pub(crate) straps: Straps,
    ghost offered: { is_offered control.setup.part control.setup.edition ≡ true },
    ghost org: { straps.org ≡ org_at control.setup.part straps.org },
    ghost pe: { straps.pe ≡ pe_at control.setup.edition straps.pe },
}

impl Live {
    // At power-up. The 46 has ORG high and the fall edition PE high, whatever the straps.
    pub(crate) fn new(setup: Setup, straps: Straps) -> Live
        requires { is_offered setup.part setup.edition ≡ true }
        ensures setup { result.control.setup ≡ setup }
        ensures state { result.control.state ≡ power_up }
        ensures out { result.out ≡ high_impedance }
        ensures org { result.straps.org ≡ org_at setup.part straps.org }
        ensures pe { result.straps.pe ≡ pe_at setup.edition straps.pe }
    {
        Live {
            control: Control::new(setup),
            out: HIGH_IMPEDANCE,
            straps: Straps {
                org: setup.part == Part::C46 || straps.org,
                pe: setup.edition == Edition::Fall || straps.pe,
            },
        }
    }
}
