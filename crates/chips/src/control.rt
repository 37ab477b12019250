//! The control of a chip: what each sample decides, without its bytes.
ghost use Rattle.std.specs.Prelude.{◌^◌, ◌<◌, ◌≤◌};
ghost use Rattle.chips.specs.Fits.{count_in, counts_in, value_in, cell_in, cells_in, next_in, bits_in};

use crate::state::State;
use protocol::settings::Setup;

mod calls;
mod steps;

#[derive(Clone, Copy)]
pub struct Control {
    pub(crate) setup: Setup,
    pub(crate) state: State,
    ghost count: { count_in state.phase ≤ 29 },
    ghost short: { count_in state.phase < counts_in setup state.phase },
    ghost value: { value_in state.phase < 2 ^ count_in state.phase },
    ghost cell: { cell_in state.phase < cells_in setup.part state.phase },
    ghost next: { next_in state.phase < bits_in state.phase },
}
