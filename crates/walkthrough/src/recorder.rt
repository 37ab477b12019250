//! A chip that records the samples of the chip below it.
use chips::chip::Chip;
use histories::call::Call;
use histories::perform::perform;
use histories::told::Told;
use protocol::list::List;
use protocol::refusal::Refusal;
use protocol::sample::Straps;

#[derive(Drop)]
pub struct Recorder<'t, 's, C: Chip> {
    chip: C,
    tape: &'t mut List<'s, u8>,
}

// It means what the chip below means, and shows what that one shows.
impl<'t, 's, C: Chip> Chip for Recorder<'t, 's, C> {
    ghost meaning = { λ r. C.Chip.meaning r.chip };

    ghost View = { C.Chip.View };

    ghost view = { λ r. C.Chip.view r.chip };

    ghost next = { C.Chip.next };

    fn facts(&self) -> (u8, u8, u8) {
        self.chip.facts()
    }

    fn put(&mut self, cs: bool, sk: bool, di: bool) -> u8 {
        // the facts are told as numbers: the driver makes these two tests too, and a function for both would be as long as they are
        let (_, org, pe) = self.chip.facts();
        let straps = Straps {
            org: org == 1,
            pe: pe == 1,
        };
        // a full tape stays as it is
        let _ = self.tape.push(straps.sample(cs, sk, di).into(), 0);
        self.chip.put(cs, sk, di)
    }
}

// Performs the calls with the samples kept on the tape.
pub fn perform_recorded<C: Chip + Drop>(
    chip: C,
    tape: &mut List<u8>,
    calls: &[Call],
    told: &mut Told,
) -> Result<(), Refusal> {
    let mut recorder = Recorder { chip, tape };
    perform(&mut recorder, calls, told)
}
