//! The reader of a trace.
ghost use Rattle.std.specs.Prelude.{◌≡◌};
ghost use Rattle.traces.specs.Reading.{readable, Listed, WasRead};

use crate::entry::Entry;
use crate::start_bit::StartBit;
use chips::control::Control;
use protocol::list::List;
use protocol::refusal::Refusal;
use protocol::sample::{Sample, check_samples};
use protocol::settings::{Settings, Setup};

// What stands in the way of reading: a sample above 31, then settings that fit no chip.
// Settings, samples and list stay arguments of their own: a struct of them would be made for one call and taken apart in it.
pub(crate) fn check(settings: Settings, samples: &[u8]) -> Result<Setup, Refusal>
    ensures { result ≡ readable settings samples.now }
{
    check_samples(samples)?;
    Setup::try_from(settings)
}

// One pass over the samples, from power-up.
#[tactic(auto, using(crate::proofs::Entering::listed))]
fn list_entries(setup: Setup, samples: &[u8], entries: &mut List<Entry>) -> Result<(), Refusal>
    ensures { Listed setup samples.now entries.old entries.new result }
{
    let mut control = Control::new(setup);
    let mut start = StartBit::NONE;
    for (place, byte) in samples.iter().enumerate() {
        let decision = control.step(Sample::from(*byte));
        if let Some(entry) = start.enter(place, decision) {
            entries.push(entry, entry.last)?;
        }
    }
    Ok(())
}

// Adds the entries of a trace to a list. Where it has no room for one, those that fitted stay.
pub fn read_trace(
    settings: Settings,
    samples: &[u8],
    entries: &mut List<Entry>,
) -> Result<(), Refusal>
    ensures { WasRead settings samples.now entries.old entries.new result }
{
    let setup = check(settings, samples)?;
    list_entries(setup, samples, entries)
}
