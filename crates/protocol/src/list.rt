//! A list kept in a slice of the caller's, of which the first `count` places are in use.
ghost use Rattle.std.specs.Prelude.{◌≤◌, length};

mod adding;
mod calls;

// The slice is the caller's, since the libraries take no heap.
#[derive(Drop)]
pub struct List<'a, T> {
    pub(crate) slice: &'a mut [T],
    pub(crate) count: usize,
    ghost within: { count ≤ length slice.now },
}
