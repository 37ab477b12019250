//! Settings as numbers.
ghost use Rattle.std.specs.Prelude.{◌≡◌};
ghost use Rattle.protocol.specs.Chosen.{setup_of};
ghost use Rattle.c_surface.specs.Answers.{settings_from, settings_answer};

use crate::answer::Answer;
use protocol::settings::{Cycles, Settings, Setup};

// C has no settings: the numbers come one by one.
pub(crate) fn settings_from(part: u8, edition: u8, write: u16, eral: u16, wrall: u16) -> Settings
    ensures { result ≡ settings_from part edition write eral wrall }
{
    let cycles = Cycles { write, eral, wrall };
    Settings {
        part,
        edition,
        cycles,
    }
}

// Do they name a chip? The length is the number of its bytes. C names a chip by five numbers.
#[unsafe(no_mangle)]
pub extern "C" fn kippercrag_check_settings(
    part: u8,
    edition: u8,
    write: u16,
    eral: u16,
    wrall: u16,
) -> Answer
    ensures { result ≡ settings_answer (setup_of (settings_from part edition write eral wrall)) }
{
    Setup::try_from(settings_from(part, edition, write, eral, wrall))
        .map(|setup| setup.part.bytes() as usize)
        .into()
}
