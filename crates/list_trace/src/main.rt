//! Lists the trace file on standard input.
#![tactic(auto)]

use listing::file::listing;
use std::io::Read;
use trace_file::LIMIT;

// One byte more than a trace file may have. `replay_trace` reads its input so too: a crate for two lines would be longer.
const ENOUGH: u64 = LIMIT as u64 + 1;

fn run(rt: &HostRuntime) -> anyhow::Result<()> {
    let mut file = Vec::new(rt.alloc());
    let _ = rt.stdin().take(ENOUGH).read_to_end(&mut file)?;
    let text = listing(rt.alloc(), &file)?;
    print!(rt; "{text}")?;
    Ok(())
}

fn main(rt: HostRuntime) -> anyhow::Result<()> {
    run(&rt)
}
