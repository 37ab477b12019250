//! What samples decide, in order: the laws.
#![tactic(auto)]

ghost use Rattle.std.specs.Prelude.{◌≡◌, true};
ghost use Rattle.decisions.specs.Laws.{Decisions};

#[tactic(auto, using(crate::proofs::Proved::decisions))]
pub fn laws_of_decisions() -> bool
    ensures answer { result ≡ true }
    ensures decisions { Decisions }
{
    true
}
