//! Writes words into a 93C46 and reads them back: each line of standard input is an address and a value.
#![tactic(auto)]

use crate::pair::{Pair, pairs_in};
use crate::saving::save;
use chips::chip::Chip;
use chips::fall::FallChip;
use driver::driver::Driver;
use protocol::sample::Straps;
use protocol::settings::Cycles;

mod pair;
mod saving;

const PART: u8 = 46;

const BYTES: usize = 128;

const CELLS: usize = 64;

const CYCLES: Cycles = Cycles {
    write: 40,
    eral: 40,
    wrall: 40,
};

// How many words a line of output has.
const ROW: usize = 16;

// Each pair's address with the word that is now there.
fn print_read<C: Chip>(
    rt: &HostRuntime,
    driver: &mut Driver<C>,
    pairs: &[Pair],
) -> anyhow::Result<()> {
    for pair in pairs {
        let address = pair.address;
        let word = driver.read(address)?;
        println!(rt; "read {address}: {word}")?;
    }
    Ok(())
}

// The words of all cells, by one run.
fn print_cells<C: Chip>(rt: &HostRuntime, driver: &mut Driver<C>) -> anyhow::Result<()> {
    let mut words = [0; CELLS];
    driver.run(0, &mut words)?;
    for (first, row) in (0..CELLS).step_by(ROW).zip(words.chunks(ROW)) {
        print!(rt; "cells from {first}:")?;
        for word in row {
            print!(rt; " {word}")?;
        }
        println!(rt; "")?;
    }
    Ok(())
}

// Saves the pairs in a chip, and prints what it then holds.
fn save_and_print<C: Chip>(rt: &HostRuntime, chip: &mut C, pairs: &[Pair]) -> anyhow::Result<()> {
    let mut driver = Driver::new(chip);
    save(&mut driver, pairs)?;
    print_read(rt, &mut driver, pairs)?;
    print_cells(rt, &mut driver)
}

fn run(rt: &HostRuntime) -> anyhow::Result<()> {
    let pairs = pairs_in(rt)?;
    let mut memory = [255u8; BYTES];
    let mut chip = FallChip::new(&mut memory, PART, CYCLES, Straps::HIGH);
    save_and_print(rt, &mut chip, &pairs)
}

fn main(rt: HostRuntime) -> anyhow::Result<()> {
    run(&rt)
}
