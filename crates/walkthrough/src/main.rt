//! One task from beginning to end: the calls with their answers on a chip of the fall edition, whether the clock edition
//! answers the same, and the listing of what went over the wire.
#![tactic(auto)]

use crate::recorder::perform_recorded;
use crate::show::print_calls;
use crate::task::TASK;
use anyhow::ensure;
use chips::clock::ClockChip;
use chips::fall::FallChip;
use histories::both::{Trace, perform_on_both};
use histories::told::Told;
use listing::lines::text_of;
use protocol::list::List;
use protocol::refusal::Refusal;
use protocol::sample::Straps;
use protocol::settings::{Cycles, Edition, Settings};
use traces::entry::Entry;

mod recorder;
mod show;
mod task;

const PART: u8 = 76;

const BYTES: usize = 1024;

const CYCLES: Cycles = Cycles {
    write: 40,
    eral: 6000,
    wrall: 9000,
};

const SETTINGS: Settings = Settings {
    part: PART,
    edition: Edition::Fall as u8,
    cycles: CYCLES,
};

// Room for what is recorded, listed, answered and read.
const SAMPLES: usize = 65536;

const ENTRIES: usize = 64;

const ANSWERS: usize = 20;

const WORDS: usize = 8;

fn print_board(rt: &HostRuntime) -> anyhow::Result<()> {
    let write = CYCLES.write;
    let clear = CYCLES.eral;
    let fill = CYCLES.wrall;
    println!(rt; "a {PART} of the fall edition powers up at width 16, all {BYTES} bytes 255")?;
    println!(rt; "a write or an erase takes {write} samples, a clear {clear}, a fill {fill}")?;
    Ok(())
}

// The task on a chip of the fall edition, with its samples on the tape.
fn perform_task(rt: &HostRuntime, tape: &mut List<u8>, told: &mut Told) -> anyhow::Result<()> {
    let mut memory = vec![in rt.alloc(); 255u8; BYTES]?;
    let mut chip = FallChip::new(&mut memory, PART, CYCLES, Straps::HIGH);
    perform_recorded(&mut chip, tape, &TASK, told)?;
    Ok(())
}

// The task on both editions, with the tape replayed: does the clock edition answer the same?
fn compare(
    rt: &HostRuntime,
    told: &Told,
    trace: &mut Trace,
) -> anyhow::Result<Result<(), Refusal>> {
    let mut memory = vec![in rt.alloc(); 255u8; BYTES]?;
    let mut other_memory = vec![in rt.alloc(); 255u8; BYTES]?;
    let mut fall = FallChip::new(&mut memory, PART, CYCLES, Straps::HIGH);
    let mut clock = ClockChip::new(&mut other_memory, PART, CYCLES, Straps::HIGH);
    let mut answers = [Ok(()); ANSWERS];
    let mut words = [0; WORDS];
    let mut again = Told {
        answers: List::new(&mut answers),
        words: List::new(&mut words),
    };
    let mut other_answers = [Ok(()); ANSWERS];
    let mut other_words = [0; WORDS];
    let mut other = Told {
        answers: List::new(&mut other_answers),
        words: List::new(&mut other_words),
    };
    let answer = perform_on_both(&mut fall, &mut clock, &TASK, &mut again, &mut other, trace);
    if told.answers.items() == other.answers.items() && told.words.items() == other.words.items() {
        println!(rt; "the clock edition gave the same answers and words")?;
    } else {
        println!(rt; "the clock edition gave other answers or words")?;
    }
    Ok(answer)
}

// The comparison, and the listing of the tape.
fn print_replay(rt: &HostRuntime, told: &Told, trace: &mut Trace) -> anyhow::Result<()> {
    let answer = compare(rt, told, trace)?;
    let count = trace.samples.len();
    println!(rt; "{count} samples were recorded, all that were put")?;
    let text = text_of(rt.alloc(), trace.entries.items(), answer)?;
    print!(rt; "{text}")?;
    Ok(())
}

// The task on both editions, and the tape on a chip of its own.
fn replay_tape(rt: &HostRuntime, told: &Told, samples: &[u8]) -> anyhow::Result<()> {
    let mut memory = vec![in rt.alloc(); 255u8; BYTES]?;
    let mut levels = vec![in rt.alloc(); 0u8; samples.len()]?;
    let mut entries = [Entry::NONE; ENTRIES];
    let entries = List::new(&mut entries);
    let mut trace = Trace {
        settings: SETTINGS,
        samples,
        memory: &mut memory,
        levels: &mut levels,
        entries,
    };
    print_replay(rt, told, &mut trace)
}

fn run(rt: &HostRuntime) -> anyhow::Result<()> {
    let mut tape = vec![in rt.alloc(); 0u8; SAMPLES]?;
    let mut tape = List::new(&mut tape);
    let mut answers = [Ok(()); ANSWERS];
    let mut words = [0; WORDS];
    let mut told = Told {
        answers: List::new(&mut answers),
        words: List::new(&mut words),
    };
    print_board(rt)?;
    perform_task(rt, &mut tape, &mut told)?;
    print_calls(rt, &TASK, told.answers.items(), told.words.items())?;
    ensure!(tape.left() > 0, "the tape is full");
    replay_tape(rt, &told, tape.items())
}

fn main(rt: HostRuntime) -> anyhow::Result<()> {
    run(&rt)
}
