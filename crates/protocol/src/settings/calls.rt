//! From settings to a chip that exists.
ghost use Rattle.std.specs.Prelude.{◌≡◌, true, IfOk, ok_or};
ghost use Rattle.protocol.specs.declared.refusal.Cause.TheVariants.{BadSettings};
ghost use Rattle.protocol.specs.Chosen.{edition_of, setup_of, is_offered};

use crate::parts::Part;
use crate::refusal::{Cause, Refusal};
use crate::settings::{Edition, Settings, Setup};

impl Part {
    // The edition with a number, if the part is made in it: the clock edition is made of the 76 and the 86 alone. No `TryFrom`, since it
    // hangs on the part.
    fn edition(self, number: u8) -> Result<Edition, Cause>
        ensures { result ≡ ok_or (edition_of self number) BadSettings }
    {
        match (self, number) {
            (_, 0) => Ok(Edition::Fall),
            (Part::C76 | Part::C86, 1) => Ok(Edition::Clock),
            _ => Err(Cause::BadSettings),
        }
    }
}

impl TryFrom<Settings> for Setup {
    type Error = Refusal;

    ghost try_from_gives = { λ settings setup. setup ≡ setup_of settings };

    fn try_from(settings: Settings) -> Result<Setup, Refusal>
        ensures is { result ≡ setup_of settings }
        ensures offered { IfOk result (λ setup. is_offered setup.part setup.edition ≡ true) }
    {
        let part = Part::try_from(settings.part)?;
        let edition = part.edition(settings.edition)?;
        Ok(Setup {
            part,
            edition,
            cycles: settings.cycles,
        })
    }
}
