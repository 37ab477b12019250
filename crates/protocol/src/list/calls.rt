//! What a list holds.
ghost use Rattle.std.specs.Prelude.{◌≡◌, ◌-◌};
ghost use Rattle.protocol.specs.Lists.{items as items_of, room as room_of};

use crate::list::List;

impl<'a, T: Copy> List<'a, T> {
    pub fn new(slice: &'a mut [T]) -> List<'a, T>
        ensures places { result.slice.now ≡ slice.old }
        ensures count { result.count ≡ 0 }
        ensures lender { result.slice.ghost_name ≡ slice.entry.ghost_name }
    {
        List { slice, count: 0 }
    }

    pub fn len(&self) -> usize
        ensures { result ≡ self.now.count }
    {
        self.count
    }

    // How many items there is room for in all.
    pub fn room(&self) -> usize
        ensures { result ≡ room_of self.now }
    {
        self.slice.len()
    }

    // How many items there is room for beside those in use.
    pub fn left(&self) -> usize
        ensures { result ≡ room_of self.now - self.now.count }
    {
        self.room() - self.len()
    }

    pub fn items(&self) -> &[T]
        ensures { result.now ≡ items_of self.now }
    {
        &self.slice[0..self.len()]
    }
}
