//! Calls performed on two chips, and a trace replayed: the laws over whole histories on one call.
ghost use Rattle.std.specs.Prelude.{◌≡◌, true};
ghost use Rattle.histories.specs.Both.{both_fit, checked, Replayed, Accounted};
ghost use Rattle.histories.specs.Performing.{has_room, PerformsIf};
ghost use Rattle.histories.specs.Told.{CountedTold, TruthfulTold, BelievedTold, BusyTold, AlikeTold};

use crate::call::Call;
use crate::perform::perform;
use crate::told::Told;
use chips::chip::Chip;
use protocol::list::List;
use protocol::refusal::Refusal;
use protocol::settings::Settings;
use traces::entry::Entry;
use traces::replay::replay;

// A trace of a chip, and where its replay goes: the bytes of the chip, the levels of DO and the entries.
#[derive(Drop)]
pub struct Trace<'s> {
    pub settings: Settings,
    pub samples: &'s [u8],
    pub memory: &'s mut [u8],
    pub levels: &'s mut [u8],
    pub entries: List<'s, Entry>,
}

// Performs the calls on each of two chips with a new driver, and replays the trace. What is refused stops the rest.
pub fn perform_on_both<C: Chip, D: Chip>(
    one: &mut C,
    other: &mut D,
    calls: &[Call],
    one_told: &mut Told,
    other_told: &mut Told,
    trace: &mut Trace,
) -> Result<(), Refusal>
    ensures one_performs { PerformsIf C.Chip (has_room calls.now one_told.old) calls.now one.old one.new one_told.old one_told.new }
    ensures other_performs { PerformsIf D.Chip (both_fit calls.now one_told.old other_told.old) calls.now other.old other.new other_told.old other_told.new }
    ensures one_counted { has_room calls.now one_told.old ≡ true → CountedTold C.Chip calls.now one.old one_told.old one_told.new }
    ensures other_counted { both_fit calls.now one_told.old other_told.old ≡ true → CountedTold D.Chip calls.now other.old other_told.old other_told.new }
    ensures one_truthful { TruthfulTold C.Chip calls.now one.old one_told.old one_told.new }
    ensures other_truthful { TruthfulTold D.Chip calls.now other.old other_told.old other_told.new }
    ensures one_believed { BelievedTold C.Chip calls.now one.old one.new one_told.old one_told.new }
    ensures other_believed { BelievedTold D.Chip calls.now other.old other.new other_told.old other_told.new }
    ensures one_busy { BusyTold C.Chip calls.now one.old one_told.old one_told.new }
    ensures other_busy { BusyTold D.Chip calls.now other.old other_told.old other_told.new }
    ensures alike { AlikeTold C.Chip calls.now one.old D.Chip other.old one_told.old one_told.new other_told.old other_told.new }
    ensures replayed { Replayed (checked (both_fit calls.now one_told.old other_told.old) trace.old) trace.old trace.new result }
    ensures account { Accounted trace.old trace.new result }
{
    // facts promises that the chips fit, on which the laws rest
    let _ = one.facts();
    let _ = other.facts();
    perform(one, calls, one_told)?;
    perform(other, calls, other_told)?;
    replay(
        trace.settings,
        trace.memory,
        trace.samples,
        trace.levels,
        &mut trace.entries,
    )
}
