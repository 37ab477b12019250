//! Replays trace files, those named as arguments or else the one on standard input, on chips whose bytes are all ones:
//! prints the listing, the levels of DO and the bytes that have changed.
#![tactic(auto)]

use chips::chip::HIGH_IMPEDANCE;
use listing::file::ENTRIES;
use listing::lines::text_of;
use protocol::list::List;
use protocol::parts::Part;
use protocol::refusal::Refusal;
use protocol::settings::Settings;
use std::io::Read;
use std::{env, fs};
use trace_file::{LIMIT, take_trace};
use traces::entry::Entry;
use traces::replay::replay;

// One byte more than a trace file may have. `list_trace` reads its input so too: a crate for two lines would be longer.
const ENOUGH: u64 = LIMIT as u64 + 1;

// The bytes of the part that settings name, 0 of none, when nothing is replayed: an `Option` would be turned into a size at once.
fn size_of(taken: Result<Settings, Refusal>) -> usize {
    taken
        .ok()
        .and_then(|settings| Part::try_from(settings.part).ok())
        .map_or(0, |part| part.bytes() as usize)
}

// Each level of DO, with how many samples it lasts.
fn print_levels(rt: &HostRuntime, levels: &[u8]) -> anyhow::Result<()> {
    print!(rt; "do")?;
    for run in levels.chunk_by(|level, next| level == next) {
        if let [level, ..] = run {
            let count = run.len();
            print!(rt; " {level} {count}")?;
        }
    }
    println!(rt; "")?;
    Ok(())
}

fn print_changes(rt: &HostRuntime, memory: &[u8]) -> anyhow::Result<()> {
    for (place, byte) in memory.iter().enumerate() {
        if *byte != 255 {
            println!(rt; "byte {place} {byte}")?;
        }
    }
    Ok(())
}

fn replay_file(rt: &HostRuntime, file: &[u8]) -> anyhow::Result<()> {
    let mut samples = vec![in rt.alloc(); 0u8; LIMIT]?;
    let mut entries = vec![in rt.alloc(); Entry::NONE; ENTRIES]?;
    let mut samples = List::new(&mut samples);
    let mut entries = List::new(&mut entries);
    let taken = take_trace(file, &mut samples);
    let mut memory = vec![in rt.alloc(); 255u8; size_of(taken)]?;
    let mut levels = vec![in rt.alloc(); HIGH_IMPEDANCE; samples.len()]?;
    let answer = taken.and_then(|settings| {
        replay(
            settings,
            &mut memory,
            samples.items(),
            &mut levels,
            &mut entries,
        )
    });
    let text = text_of(rt.alloc(), entries.items(), answer)?;
    print!(rt; "{text}")?;
    if answer.is_ok() {
        print_levels(rt, &levels)?;
        print_changes(rt, &memory)?;
    }
    Ok(())
}

// `list_cases` goes over its files so too: a crate for three lines would be longer.
fn replay_named(rt: &HostRuntime, path: &str) -> anyhow::Result<()> {
    let file = fs::read(rt, path)?;
    println!(rt; "== {path}")?;
    replay_file(rt, &file)
}

fn replay_input(rt: &HostRuntime) -> anyhow::Result<()> {
    let mut file = Vec::new(rt.alloc());
    let _ = rt.stdin().take(ENOUGH).read_to_end(&mut file)?;
    replay_file(rt, &file)
}

fn run(rt: &HostRuntime) -> anyhow::Result<()> {
    let mut paths = env::args(rt)?.skip(1).peekable();
    if paths.peek().is_none() {
        return replay_input(rt);
    }
    for path in paths {
        replay_named(rt, path.as_str())?;
    }
    Ok(())
}

fn main(rt: HostRuntime) -> anyhow::Result<()> {
    run(&rt)
}
