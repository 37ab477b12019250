//! Models at power-up.
ghost use Rattle.std.specs.Prelude.{◌≡◌, true, IfOk};
ghost use Rattle.protocol.specs.Chosen.{is_offered};
ghost use Rattle.protocol.specs.Parts.{bytes_of};
ghost use Rattle.chips.specs.Powered.{fitted, powered, settings_in};
ghost use Rattle.chips.specs.Meaning.{pins_of};

use crate::live::Live;
use crate::model::Model;
use protocol::refusal::{Cause, Refusal};
use protocol::sample::Straps;
use protocol::settings::{Cycles, Edition, Settings, Setup};

// Does such a chip exist, and has the memory its size?
pub fn check(settings: Settings, size: usize) -> Result<Setup, Refusal>
    ensures is { result ≡ fitted settings size }
    ensures offered { IfOk result (λ setup. is_offered setup.part setup.edition ≡ true) }
    ensures size { IfOk result (λ setup. size ≡ bytes_of setup.part) }
{
    let setup = Setup::try_from(settings)?;
    if size != setup.part.bytes() as usize {
        return Err(Cause::MemorySize.into());
    }
    Ok(setup)
}

impl<'a> Model<'a> {
    // A blank where the check refuses.
    pub fn new(memory: &'a mut [u8], settings: Settings, straps: Straps) -> Model<'a>
        ensures is { pins_of result ≡ powered settings straps memory.old }
        ensures lender { result.memory.ghost_name ≡ memory.entry.ghost_name }
    {
        let Ok(setup) = check(settings, memory.len()) else {
            return Model { memory, live: None };
        };
        Model {
            memory,
            live: Some(Live::new(setup, straps)),
        }
    }

    // The model of an edition. The part comes by its number: an enum would ask more of callers.
    pub(crate) fn in_edition(
        memory: &'a mut [u8],
        edition: Edition,
        part: u8,
        cycles: Cycles,
        straps: Straps,
    ) -> Model<'a>
        ensures is { pins_of result ≡ powered (settings_in edition part cycles) straps memory.old }
        ensures lender { result.memory.ghost_name ≡ memory.entry.ghost_name }
    {
        let settings = Settings {
            part,
            edition: edition as u8,
            cycles,
        };
        Model::new(memory, settings, straps)
    }
}
