//! A trace run on a chip at power-up and read beside it.
ghost use Rattle.std.specs.Prelude.{◌≡◌, length};
ghost use Rattle.traces.specs.Reading.{ReadAfter};
ghost use Rattle.traces.specs.Replaying.{replayable, bytes_after, levels_after, Accounts};

use crate::entry::Entry;
use crate::reader::read_trace;
use chips::model::{Model, check, check_trace};
use protocol::list::List;
use protocol::refusal::Refusal;
use protocol::sample::Straps;
use protocol::settings::{Settings, Setup};

fn check_replay(
    settings: Settings,
    memory: usize,
    samples: &[u8],
    buffer: usize,
) -> Result<Setup, Refusal>
    ensures { result ≡ replayable settings memory samples.now buffer }
{
    check_trace(samples, buffer)?;
    check(settings, memory)
}

// Lists the entries of a trace, and leaves in the memory and the buffer what a chip over that memory makes of it.
#[tactic(auto, using(crate::proofs::Replays::reads, crate::proofs::Replays::done, crate::proofs::Replays::bytes_are, crate::proofs::Replays::levels_are))]
pub fn replay(
    settings: Settings,
    memory: &mut [u8],
    samples: &[u8],
    levels: &mut [u8],
    entries: &mut List<Entry>,
) -> Result<(), Refusal>
    ensures listed { ReadAfter (replayable settings (length memory.old) samples.now (length levels.old)) samples.now entries.old entries.new result }
    ensures bytes { memory.new ≡ bytes_after (replayable settings (length memory.old) samples.now (length levels.old)) result samples.now memory.old }
    ensures levels { levels.new ≡ levels_after (replayable settings (length memory.old) samples.now (length levels.old)) result samples.now memory.old levels.old }
    ensures account { Accounts (replayable settings (length memory.old) samples.now (length levels.old)) result entries.old entries.new memory.old memory.new }
{
    check_replay(settings, memory.len(), samples, levels.len())?;
    read_trace(settings, samples, entries)?;
    // As in the library for C, which judges and lists nothing beside it: to share these lines would save one.
    // Every sample brings its own levels, so that the straps do not matter.
    let mut model = Model::new(memory, settings, Straps::HIGH);
    model.run_trace(samples, levels)
}
