//! How long a polling looks, and the laws of what polling and frames do to a chip.
ghost use Rattle.std.specs.Prelude.{◌≡◌, true};
ghost use Rattle.wire.specs.Laws.{Laws};
ghost use Rattle.wire.specs.Polling as polling;

// How often a polling looks at most.
pub fn most_tries() -> u16
    ensures { result ≡ polling.most_tries }
{
    4096
}

// The laws of the wire, over every part, width and edition.
#[tactic(auto, using(crate::proofs::Held::laws))]
pub fn laws_of_the_wire() -> bool
    ensures answer { result ≡ true }
    ensures laws { Laws }
{
    true
}
