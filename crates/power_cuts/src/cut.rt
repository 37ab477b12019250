//! A history whose supply fails.
ghost use Rattle.std.specs.Prelude.{◌≡◌, true, take, if◌then◌else◌, [], Ok, IfOk};
ghost use Rattle.chips.specs.Seen.{seen};
ghost use Rattle.wire.specs.Sent.{Sends};
ghost use Rattle.power_cuts.specs.Standing.{held_with};
ghost use Rattle.histories.specs.Performing.{has_room, Performed, PerformsIf};
ghost use Rattle.histories.specs.Samples.{samples_from};
ghost use Rattle.power_cuts.specs.Counting.{uncut_count};
ghost use Rattle.power_cuts.specs.Cuts.{CountsWhole, HasBytesOfWhole};
ghost use Rattle.power_cuts.specs.Laws.{CallIsWhole, CallRests};
ghost use Rattle.power_cuts.specs.Twin.{twin_after};

use crate::twin::WithTwin;
use chips::chip::Chip;
use driver::driver::Driver;
use histories::call::Call;
use histories::perform::{has_room, perform_next};
use histories::told::Told;
use protocol::refusal::{Cause, Refusal};

// Performs the calls, and counts those after which every sample so far has reached the twin.
fn count_whole<C: Chip, D: Chip>(
    driver: &mut Driver<WithTwin<C, D>>,
    calls: &[Call],
    told: &mut Told,
) -> Result<usize, Refusal>
    requires { has_room calls.now told.old ≡ true }
    ensures count { result ≡ Ok (uncut_count (twin_after C.Chip.next D.Chip.next) calls.now (held_with C.Chip D.Chip driver.old)) }
    ensures performed { Performed (twin_after C.Chip.next D.Chip.next) calls.now (held_with C.Chip D.Chip driver.old) (held_with C.Chip D.Chip driver.new) told.old told.new }
{
    let mut whole = 0;
    for call in calls {
        perform_next(driver, *call, told)?;
        if !driver.get_ref().cut {
            whole += 1;
        }
    }
    Ok(whole)
}

// Performs the calls with a new driver on the chip. Their samples go to the twin too, but only the first `samples` of them, as if its
// supply failed then. The answer is how many of the calls are whole: all their samples came. Without room for what the calls hand out
// nothing is done.
pub fn perform_with_cut<C: Chip, D: Chip>(
    chip: &mut C,
    twin: &mut D,
    calls: &[Call],
    samples: usize,
    told: &mut Told,
) -> Result<usize, Refusal>
    ensures performs { PerformsIf C.Chip (has_room calls.now told.old) calls.now chip.old chip.new told.old told.new }
    ensures sent { Sends D.Chip twin.old twin.new (if has_room calls.now told.old then take samples (samples_from calls.now (C.Chip.meaning chip.old)) else []) }
    ensures whole { CountsWhole (has_room calls.now told.old) calls.now (C.Chip.meaning chip.old) samples result }
    ensures bytes { D.Chip.meaning twin.old ≡ C.Chip.meaning chip.old
        → IfOk result (λ n. HasBytesOfWhole calls.now (C.Chip.meaning chip.old) n (D.Chip.meaning twin.new)) }
{
    // facts promises that the chip fits, on which the law of the bytes rests
    let _ = chip.facts();
    if !has_room(calls, told) {
        return Err(Cause::NoRoom.into());
    }
    let mut driver = Driver::new(WithTwin {
        chip,
        twin,
        left: samples,
        cut: false,
    });
    count_whole(&mut driver, calls, told)
}

// What one call leaves, and what a supply that fails within it leaves, of any driver whose chip, once greeted, is at rest.
#[tactic(auto, using(crate::proofs::Calls::call_is_whole, crate::proofs::Calls::call_rests))]
pub fn laws_of_calls<C: Chip>() -> bool
    ensures answer { result ≡ true }
    ensures whole { CallIsWhole C.Chip.View }
    ensures rests { CallRests C.Chip.View }
{
    true
}
