//! Lists each file that is named as an argument: many cases in one run.
#![tactic(auto)]

use listing::file::listing;
use std::{env, fs};

fn list_one(rt: &HostRuntime, path: &str) -> anyhow::Result<()> {
    let file = fs::read(rt, path)?;
    let text = listing(rt.alloc(), &file)?;
    println!(rt; "== {path}")?;
    print!(rt; "{text}")?;
    Ok(())
}

// `replay_trace` goes over its files so too: a crate for three lines would be longer.
fn run(rt: &HostRuntime) -> anyhow::Result<()> {
    for path in env::args(rt)?.skip(1) {
        list_one(rt, path.as_str())?;
    }
    Ok(())
}

fn main(rt: HostRuntime) -> anyhow::Result<()> {
    run(&rt)
}
