//! One sample after the other. A step is inlined where it is called, so that a loop over samples keeps the state in registers.
ghost use Rattle.std.specs.Prelude.{◌≡◌, ◌^◌, ◌<◌, ◌≤◌, true};
ghost use Rattle.protocol.specs.Instructions.{length_of, kind_at};
ghost use Rattle.protocol.specs.Parts.{bits_of, cells_of};
ghost use Rattle.chips.specs.Control.{obeyed, ending, deselected, is_quiet, taken, appended, read_on, turned, turn};
ghost use Rattle.chips.specs.declared.state.Decision.TheVariants.{Nothing};
ghost use Rattle.chips.specs.declared.state.Phase.TheVariants.{Taking};
ghost use Rattle.chips.specs.Fits.{bits_below, DecisionFits};
ghost use Rattle.chips.specs.Turning.{Decides, Turns};

use crate::control::Control;
use crate::incoming::{Incoming, Permission};
use crate::state::{Decision, Phase, State};
use protocol::instruction::Kind;
use protocol::parts::Width;
use protocol::sample::Sample;
use protocol::settings::{Edition, Setup};

impl Control {
    // Carries out what was decided.
    #[inline(always)]
    fn obey(&mut self, decision: Decision)
        ensures state { self.new.state ≡ obeyed self.old.setup decision self.old.state }
        ensures setup { self.new.setup ≡ self.old.setup }
    {
        if let Decision::Instruction { kind, verdict, .. } = decision {
            let Setup {
                edition,
                cycles,
                ..
            } = self.setup;
            match kind {
                Kind::Wen => self.state.enabled = true,
                Kind::Wds => self.state.enabled = false,
                Kind::Write | Kind::Erase => self.state.begin(edition, cycles.write, verdict),
                Kind::Eral => self.state.begin(edition, cycles.eral, verdict),
                Kind::Wrall => self.state.begin(edition, cycles.wrall, verdict),
                Kind::Read => {}
            }
        }
    }

    fn permission(&self, pe: bool) -> Permission
        ensures enabled { result.enabled ≡ self.now.state.enabled }
        ensures pe { result.pe ≡ pe }
    {
        Permission {
            enabled: self.state.enabled,
            pe,
        }
    }

    fn incoming(&self, width: Width, count: u8, bits: u32) -> Incoming
        requires { (count ≤ 29) × (bits < 2 ^ count) }
        ensures setup { result.setup ≡ self.now.setup }
        ensures width { result.width ≡ width }
        ensures count { result.count ≡ count }
        ensures bits { result.bits ≡ bits }
    {
        Incoming {
            setup: self.setup,
            width,
            count,
            bits,
        }
    }

    // CS is low: what that decided is carried out, and the chip waits.
    #[inline(always)]
    fn deselect(&mut self, decision: Decision) -> Decision
        requires { DecisionFits self.old.setup.part decision }
        ensures { Turns self.old self.new result (deselected self.old.setup decision self.old.state) }
    {
        self.obey(decision);
        self.state.rest();
        decision
    }

    // CS has fallen while an instruction came in.
    #[inline(always)]
    fn end(&mut self, pe: bool, incoming: Incoming) -> Decision
        requires { incoming.setup ≡ self.old.setup }
        ensures { Turns self.old self.new result (deselected self.old.setup (ending self.old.setup self.old.state.enabled pe (Taking incoming.width incoming.count incoming.bits)) self.old.state) }
    {
        self.deselect(incoming.ending(self.permission(pe)))
    }

    // An instruction has got one more bit.
    #[tactic(auto, using(crate::proofs::Lengths::still_short))]
    #[inline(always)]
    fn take(&mut self, pe: bool, incoming: Incoming) -> Decision
        requires setup { incoming.setup ≡ self.old.setup }
        requires most { incoming.count ≤ length_of self.old.setup.part incoming.width (kind_at incoming.count incoming.bits) }
        ensures { Turns self.old self.new result (taken self.old.setup pe incoming.width incoming.count incoming.bits self.old.state) }
    {
        let width = incoming.width;
        if incoming.has_read_address() {
            let cell = incoming.cell();
            self.state.phase = Phase::Reading {
                width,
                cell,
                next: 0,
            };
            Decision::Address { width, cell }
        } else if self.setup.edition == Edition::Clock && incoming.is_whole() {
            let instruction = incoming.instruction(self.permission(pe));
            self.obey(instruction);
            self.state.phase = Phase::Over;
            instruction
        } else {
            self.state.phase = incoming.into();
            Decision::Nothing
        }
    }

    // A clock while an instruction comes in.
    #[tactic(auto, using(crate::proofs::Lengths::midway_short))]
    #[inline(always)]
    fn append(&mut self, s: Sample, incoming: Incoming) -> Decision
        requires setup { incoming.setup ≡ self.old.setup }
        requires short { incoming.count < bits_below self.old.setup incoming.width incoming.count incoming.bits }
        ensures { Turns self.old self.new result (appended self.old.setup s incoming.width incoming.count incoming.bits self.old.state) }
    {
        if incoming.is_midway() {
            self.state.phase = incoming.append(s.di).into();
            Decision::Nothing
        } else if incoming.is_short() {
            self.take(s.pe, incoming.append(s.di))
        } else {
            self.state.phase = Phase::Spoiled;
            Decision::Nothing
        }
    }

    // The phase after a clock in reading.
    #[inline(always)]
    fn read_on(&self, width: Width, cell: u16, next: u8) -> Phase
        requires { (cell < cells_of self.now.setup.part width) × (next < bits_of width) }
        ensures { result ≡ read_on self.now.setup.part width cell next }
    {
        if next + 1 < width.bits() {
            Phase::Reading {
                width,
                cell,
                next: next + 1,
            }
        } else {
            let cells = self.setup.part.organised(width).cells();
            Phase::Reading {
                width,
                cell: (cell + 1) % cells,
                next: 0,
            }
        }
    }

    // Rules 2 to 4, in their order: each arm names CS and SK as they were and are, the phase, and DI.
    #[tactic(auto, using(crate::proofs::Lengths::start_short))]
    #[inline(always)]
    fn decide(&mut self, s: Sample) -> Decision
        ensures { Turns self.old self.new result (turned self.old.setup s self.old.state) }
    {
        let was = self.state;
        let busy = was.left != 0;
        match ((was.cs, s.cs), (was.sk, s.sk), was.phase, s.di) {
            // Rule 2. CS falls while an instruction comes in, or after too many bits; else it is low.
            ((true, false), _, Phase::Taking { width, count, bits }, _) => {
                self.end(s.pe, self.incoming(width, count, bits))
            }
            ((true, false), _, Phase::Spoiled, _) => self.deselect(Decision::WrongCount),
            ((_, false), _, _, _) => self.deselect(Decision::Nothing),
            // Rule 3. CS rises while a cycle is under way.
            ((false, true), _, _, _) if busy => {
                self.state.phase = Phase::Over;
                self.state.status = true;
                Decision::Nothing
            }
            // Rule 4. A clock, which does nothing while a cycle is under way.
            _ if busy => Decision::Nothing,
            ((true, true), (false, true), Phase::Waiting, true) => {
                let width = self.setup.part.width(s.org);
                self.state.phase = self.incoming(width, 0, 0).into();
                Decision::Start { width }
            }
            ((true, true), (false, true), Phase::Taking { width, count, bits }, _) => {
                self.append(s, self.incoming(width, count, bits))
            }
            ((true, true), (false, true), Phase::Reading { width, cell, next }, _) => {
                self.state.phase = self.read_on(width, cell, next);
                Decision::Data { width, cell, next }
            }
            ((true, true), (false, true), Phase::Over, true) => {
                self.state.status = false;
                Decision::Nothing
            }
            _ => Decision::Nothing,
        }
    }

    // Ages the cycle, decides, and keeps the levels.
    #[tactic(auto, unfolding(crate::specs::Control::turn))]
    #[inline(always)]
    fn advance(&mut self, s: Sample) -> Decision
        ensures { Turns self.old self.new result (turn self.old.setup self.old.state s) }
    {
        self.state.age();
        let decision = self.decide(s);
        self.state.cs = s.cs;
        self.state.sk = s.sk;
        decision
    }

    // Does CS stay as it was, with no clock that is heard? Most samples are so, and decide nothing.
    #[inline(always)]
    fn is_quiet(&self, s: Sample) -> bool
        ensures { result ≡ is_quiet s self.now.state }
    {
        if s.cs {
            self.state.cs && (!s.sk || self.state.sk || self.state.left > 1)
        } else {
            !self.state.cs
        }
    }

    // A quiet sample.
    #[tactic(auto, unfolding(crate::specs::Control::turn))]
    #[inline(always)]
    fn pass(&mut self, s: Sample)
        requires { is_quiet s self.old.state ≡ true }
        ensures { Turns self.old self.new Nothing (turn self.old.setup self.old.state s) }
    {
        if !s.cs {
            self.state.rest();
        }
        self.state.age();
        self.state.cs = s.cs;
        self.state.sk = s.sk;
    }

    // One sample: what it decided.
    #[inline(always)]
    pub fn step(&mut self, s: Sample) -> Decision
        ensures state { self.new.state ≡ (turn self.old.setup self.old.state s).state }
        ensures decision { result ≡ (turn self.old.setup self.old.state s).decision }
        ensures fits { DecisionFits self.old.setup.part result }
        ensures setup { self.new.setup ≡ self.old.setup }
    {
        if self.is_quiet(s) {
            self.pass(s);
            return Decision::Nothing;
        }
        self.advance(s)
    }
}
