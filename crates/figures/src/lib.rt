//! Worked figures: what the definitions say of single cases.
#![tactic(auto)]

ghost use Rattle.std.specs.Prelude.{◌≡◌, true};
ghost use Rattle.figures.specs.Figures.{Figures};

use chips::chip::Chip;

// The figures that a driver has a part in are the same over any chip.
pub fn worked_figures<C: Chip>() -> bool
    ensures answer { result ≡ true }
    ensures figures { Figures C.Chip.next }
{
    true
}
