//! Cuts the supply of a chip at many samples of one history: which calls are then whole, and what the cells hold.
#![tactic(auto)]

use chips::chip::Chip;
use chips::fall::FallChip;
use histories::call::Call;
use histories::told::Told;
use power_cuts::cut::perform_with_cut;
use protocol::list::List;
use protocol::refusal::Refusal;
use protocol::sample::Straps;
use protocol::settings::Cycles;

const PART: u8 = 46;

const BYTES: usize = 128;

const CYCLES: Cycles = Cycles {
    write: 100,
    eral: 0,
    wrall: 0,
};

const CALLS: [Call; 6] = [
    Call::Greet,
    Call::Open,
    Call::Write {
        address: 0,
        value: 1000,
    },
    Call::Write {
        address: 1,
        value: 1001,
    },
    Call::Write {
        address: 2,
        value: 1002,
    },
    Call::Shut,
];

// How many cells a line shows.
const CELLS: usize = 3;

// A cut every so many samples, up to past the end of the history.
const STEP: usize = 40;

const MOST: usize = 560;

// Performs the calls, with the supply of the twin cut after so many samples: how many calls are whole.
fn whole_calls<C: Chip, D: Chip>(
    chip: &mut C,
    twin: &mut D,
    samples: usize,
) -> Result<usize, Refusal> {
    let mut answers = [Ok(()); CALLS.len()];
    let mut told = Told {
        answers: List::new(&mut answers),
        words: List::new(&mut []),
    };
    perform_with_cut(chip, twin, &CALLS, samples, &mut told)
}

// The same on two chips at power-up: the memory of the twin is what the cut leaves.
fn cut_after(samples: usize, left: &mut [u8]) -> Result<usize, Refusal> {
    let mut memory = [255; BYTES];
    let mut chip = FallChip::new(&mut memory, PART, CYCLES, Straps::HIGH);
    let mut twin = FallChip::new(left, PART, CYCLES, Straps::HIGH);
    whole_calls(&mut chip, &mut twin, samples)
}

fn print_cells(rt: &HostRuntime, memory: &[u8]) -> anyhow::Result<()> {
    for bytes in memory.chunks_exact(2).take(CELLS) {
        if let [high, low] = bytes {
            let word = u16::from_be_bytes([*high, *low]);
            print!(rt; " {word}")?;
        }
    }
    Ok(())
}

fn print_cut(rt: &HostRuntime, samples: usize) -> anyhow::Result<()> {
    let mut left = [255; BYTES];
    let whole = cut_after(samples, &mut left)?;
    print!(rt; "{samples} {whole}")?;
    print_cells(rt, &left)?;
    match CALLS.iter().take(whole).last() {
        Some(call) => println!(rt; " {call}")?,
        None => println!(rt; " -")?,
    }
    Ok(())
}

fn run(rt: &HostRuntime) -> anyhow::Result<()> {
    let write = CYCLES.write;
    println!(rt;
        "a {PART} of the fall edition powers up, all cells 65535; a write takes {write} samples"
    )?;
    println!(rt; "cut whole cells 0 to 2, last whole call")?;
    for samples in (0..=MOST).step_by(STEP) {
        print_cut(rt, samples)?;
    }
    Ok(())
}

fn main(rt: HostRuntime) -> anyhow::Result<()> {
    run(&rt)
}
