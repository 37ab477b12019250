//! The sample records.
ghost use Rattle.std.specs.Prelude.{◌+◌, ◌≤◌, length};

mod calls;

// Those that are left of a file, and the place where they begin.
#[derive(Clone, Copy, Drop)]
pub(crate) struct Records<'a> {
    pub(crate) place: usize,
    pub(crate) bytes: &'a [u8],
    ghost within: { place + length bytes.now ≤ 65536 },
}
