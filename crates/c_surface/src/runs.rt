//! A trace run on a model.
ghost use Rattle.std.specs.Prelude.{◌≡◌, length};
ghost use Rattle.c_surface.specs.Answers.{settings_from};
ghost use Rattle.c_surface.specs.Running.{runnable, bytes_ran, levels_ran, run_answer};

use crate::answer::Answer;
use crate::settings::settings_from;
use chips::model::{Model, check};
use protocol::refusal::Refusal;
use protocol::sample::Straps;
use protocol::settings::{Settings, Setup};

fn run(
    settings: Settings,
    memory: &mut [u8],
    samples: &[u8],
    levels: &mut [u8],
) -> Result<Setup, Refusal>
    ensures answer { result ≡ runnable settings (length memory.old) samples.now (length levels.old) }
    ensures bytes { memory.new ≡ bytes_ran (runnable settings (length memory.old) samples.now (length levels.old)) samples.now memory.old }
    ensures levels { levels.new ≡ levels_ran (runnable settings (length memory.old) samples.now (length levels.old)) samples.now memory.old levels.old }
{
    let setup = check(settings, memory.len())?;
    // As in `replay`, which judges more before and lists: a function for both would save it one line, and judge twice.
    // Every sample brings its own levels, so that the straps do not matter.
    let mut model = Model::new(memory, settings, Straps::HIGH);
    model.run_trace(samples, levels)?;
    Ok(setup)
}

// Runs a trace on a chip at power-up over the memory. The length is the number of samples. C names a chip by five numbers.
#[unsafe(no_mangle)]
pub extern "C" fn kippercrag_run_trace(
    part: u8,
    edition: u8,
    write: u16,
    eral: u16,
    wrall: u16,
    memory: &mut [u8],
    samples: &[u8],
    levels: &mut [u8],
) -> Answer
    ensures answer { result ≡ run_answer (runnable (settings_from part edition write eral wrall) (length memory.old) samples.now (length levels.old)) samples.now }
    ensures bytes { memory.new ≡ bytes_ran (runnable (settings_from part edition write eral wrall) (length memory.old) samples.now (length levels.old)) samples.now memory.old }
    ensures levels { levels.new ≡ levels_ran (runnable (settings_from part edition write eral wrall) (length memory.old) samples.now (length levels.old)) samples.now memory.old levels.old }
{
    let settings = settings_from(part, edition, write, eral, wrall);
    run(settings, memory, samples, levels)
        .map(|_| samples.len())
        .into()
}
