//! What to write, and where.
use anyhow::{Context, Error};
use std::str::FromStr;

#[derive(Clone, Copy, Drop)]
pub struct Pair {
    pub address: u16,
    pub value: u16,
}

// Two numbers with a space between them.
impl FromStr for Pair {
    type Err = Error;

    fn from_str(line: &str) -> Result<Pair, Error> {
        let (address, value) = line
            .split_once(' ')
            .context(format_args!("no pair in {line:?}"))?;
        let address = address
            .parse::<u16>()
            .context(format_args!("address {address:?}"))?;
        let value = value
            .parse::<u16>()
            .context(format_args!("value {value:?}"))?;
        Ok(Pair { address, value })
    }
}

// The pairs on standard input, a line each.
pub fn pairs_in(rt: &HostRuntime) -> anyhow::Result<Vec<Pair>> {
    let mut pairs = Vec::new(rt.alloc());
    for line in rt.lines(rt.alloc()) {
        let pair = line?.as_str().parse::<Pair>()?;
        pairs.push(pair)?;
    }
    Ok(pairs)
}
