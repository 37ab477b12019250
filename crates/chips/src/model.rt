//! A chip over the caller's memory.
ghost use Rattle.std.specs.Prelude.{◌≡◌, length};
ghost use Rattle.chips.specs.Sizes.{size_of};

use crate::live::Live;

mod chip;
mod power;
mod trace;

pub use power::check;
pub use protocol::sample::Straps;
pub use trace::check_trace;

// The caller's bytes, since the libraries take no heap, and what a chip keeps beside them; a blank keeps and does nothing.
#[derive(Drop)]
pub struct Model<'a> {
    pub(crate) memory: &'a mut [u8],
    pub(crate) live: Option<Live>,
    ghost size: { length memory.now ≡ size_of live (length memory.now) },
}
