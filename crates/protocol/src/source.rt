//! What fills the free places of a list.
ghost use Rattle.std.specs.Prelude.{List, Result};
ghost use Rattle.protocol.specs.declared.refusal.Refusal.{Refusal as RefusalOf};

use crate::refusal::Refusal;

// A source of items, as a driver is of the words of its chip. `from` says where they begin.
pub trait Source<A, T> {
    // what filling makes of the source and of the places, and what it answers: the source, where to begin, and the places; then source,
    // places and answer
    ghost fills: { Self → A → List T → Self → List T → Result (Unit {0}) RefusalOf → Type 0 };

    fn fill(&mut self, from: A, places: &mut [T]) -> Result<(), Refusal>
        ensures { fills self.old from places.old self.new places.new result };
}
