//! What an instruction decides once it is whole.
ghost use Rattle.std.specs.Prelude.{◌≡◌};
ghost use Rattle.protocol.specs.Instructions.{length_of, kind_at};
ghost use Rattle.chips.specs.declared.state.Phase.TheVariants.{Taking};
ghost use Rattle.chips.specs.Control.{verdict_of, instruction_at, ending};
ghost use Rattle.chips.specs.Turning.{Decides};

use crate::incoming::Incoming;
use crate::state::{Decision, Phase, Verdict};
use protocol::instruction::Kind;
use protocol::settings::Edition;

// What a change needs: an open chip, and PE in the clock edition.
#[derive(Clone, Copy, Drop)]
pub(crate) struct Permission {
    pub(crate) enabled: bool,
    pub(crate) pe: bool,
}

impl Permission {
    // Shut is judged before protected.
    fn verdict(self, edition: Edition, kind: Kind) -> Verdict
        ensures { result ≡ verdict_of edition self.enabled self.pe kind }
    {
        if !kind.is_change() {
            Verdict::CarriedOut
        } else if !self.enabled {
            Verdict::Shut
        } else if edition == Edition::Clock && !self.pe {
            Verdict::Protected
        } else {
            Verdict::CarriedOut
        }
    }
}

// The phase in which it comes in.
impl From<Incoming> for Phase {
    ghost from_gives = { λ incoming phase. phase ≡ Taking incoming.width incoming.count incoming.bits };

    fn from(incoming: Incoming) -> Phase {
        Phase::Taking {
            width: incoming.width,
            count: incoming.count,
            bits: incoming.bits,
        }
    }
}

impl Incoming {
    // An instruction of its whole length.
    #[tactic(auto, using(crate::proofs::Lengths::least_length))]
    #[inline(always)]
    pub(crate) fn instruction(self, permission: Permission) -> Decision
        requires { self.count ≡ length_of self.setup.part self.width (kind_at self.count self.bits) }
        ensures { Decides self.setup.part result (instruction_at self.setup permission.enabled permission.pe self.width self.count self.bits) }
    {
        let kind = self.kind();
        Decision::Instruction {
            kind,
            width: self.width,
            cell: self.cell(),
            value: self.value(kind),
            verdict: permission.verdict(self.setup.edition, kind),
        }
    }

    // CS has fallen.
    #[inline(always)]
    pub(crate) fn ending(self, permission: Permission) -> Decision
        ensures { Decides self.setup.part result (ending self.setup permission.enabled permission.pe (Taking self.width self.count self.bits)) }
    {
        if self.setup.edition == Edition::Fall && self.is_whole() {
            self.instruction(permission)
        } else {
            Decision::WrongCount
        }
    }
}
