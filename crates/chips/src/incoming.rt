//! An instruction that comes in, and what its bits say.
ghost use Rattle.std.specs.Prelude.{◌^◌, ◌<◌, ◌≤◌};

use protocol::parts::Width;
use protocol::settings::Setup;

mod bits;
mod whole;

pub(crate) use whole::Permission;

// The bits since the start bit, as their count and their value, at the width that it fixed.
#[derive(Clone, Copy, Drop)]
pub(crate) struct Incoming {
    pub(crate) setup: Setup,
    pub(crate) width: Width,
    pub(crate) count: u8,
    pub(crate) bits: u32,
    ghost few: { count ≤ 29 },
    ghost small: { bits < 2 ^ count },
}
