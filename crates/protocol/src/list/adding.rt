//! Adding to a list.
ghost use Rattle.std.specs.Prelude.{◌+◌, ◌<◌, ◌≤◌, [], ◌∷◌, length};
ghost use Rattle.protocol.specs.Lists.{room, has_places, Added, Adds, FilledFrom, AddsFrom};

use crate::list::List;
use crate::refusal::{Cause, Refusal};
use crate::source::Source;

impl<T: Copy> List<'_, T> {
    // The item in the first free place. Tried as an extension by an array of one: the proof that an item of any type fits in memory does
    // not close without asking more of callers.
    fn store(&mut self, item: T)
        requires { self.old.count < room self.old }
        ensures { Added self.old (item ∷ []) self.new }
    {
        let at = self.count;
        self.slice[at] = item;
        self.count = at + 1;
    }

    // All of these, in the free places.
    fn store_all(&mut self, more: &[T])
        requires { self.old.count + length more.now ≤ room self.old }
        ensures { Added self.old more.now self.new }
    {
        let end = self.count + more.len();
        self.slice[self.count..end].copy_from_slice(more);
        self.count = end;
    }

    // One item more, or a refusal at the place given, which leaves the list as it was.
    pub fn push(&mut self, item: T, place: usize) -> Result<(), Refusal>
        ensures { Adds self.old (item ∷ []) place self.new result }
    {
        if self.left() == 0 {
            return Err(Cause::NoRoom.at(place));
        }
        self.store(item);
        Ok(())
    }

    // All of these items, or none of them and a refusal at the place given.
    pub fn extend(&mut self, more: &[T], place: usize) -> Result<(), Refusal>
        ensures { Adds self.old more.now place self.new result }
    {
        if more.len() > self.left() {
            return Err(Cause::NoRoom.at(place));
        }
        self.store_all(more);
        Ok(())
    }

    // So many free places, filled by the source. They are items where it is done.
    #[tactic(auto, using(crate::proofs::Adding::filled_done))]
    fn fill_from<A, S: Source<A, T>>(
        &mut self,
        source: &mut S,
        from: A,
        count: usize,
    ) -> Result<(), Refusal>
        requires { self.old.count + count ≤ room self.old }
        ensures { FilledFrom (S.fills source.old from) self.old count source.new self.new result }
    {
        let end = self.count + count;
        source.fill(from, &mut self.slice[self.count..end])?;
        self.count += count;
        Ok(())
    }

    // So many items more, put by the source straight into free places. Without room for all of them the source is not asked, and the
    // refusal is at the place given; where the source refuses, the items are as they were.
    pub fn extend_from<A: Copy, S: Source<A, T>>(
        &mut self,
        source: &mut S,
        from: A,
        count: usize,
        place: usize,
    ) -> Result<(), Refusal>
        ensures { AddsFrom (S.fills source.old from) (has_places self.old count) self.old count place source.old source.new
            self.new result }
    {
        if count > self.left() {
            return Err(Cause::NoRoom.at(place));
        }
        self.fill_from(source, from, count)
    }
}
