//! The cells of a part.
ghost use Rattle.std.specs.Prelude.{◌≡◌, length};
ghost use Rattle.protocol.specs.Parts.{bytes_of};

use protocol::parts::Part;

mod access;
mod steps;

// A memory of the part's size.
#[derive(Drop)]
pub(crate) struct Cells<'m> {
    pub(crate) memory: &'m mut [u8],
    pub(crate) part: Part,
    ghost size: { length memory.now ≡ bytes_of part },
}
