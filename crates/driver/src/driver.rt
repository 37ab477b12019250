//! The driver of one chip.
mod calls;
mod checks;
mod chip;
mod source;

use chips::chip::Chip;

// Its chip, and the record of what it has done: has it greeted the chip, and does the chip count as open?
#[derive(Drop)]
pub struct Driver<C: Chip> {
    chip: C,
    greeted: bool,
    opened: bool,
}
