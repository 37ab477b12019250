//! Samples as bytes.
ghost use Rattle.std.specs.Prelude.{◌≡◌, ◌+◌, ◌≤◌, length, drop, max, fold};
ghost use Rattle.std.specs.List.{position};
ghost use Rattle.protocol.specs.Samples.{levels, strapped, byte_of, is_high, high_at, samples_checked};

use crate::refusal::{Cause, Refusal};
use crate::sample::{Sample, Straps};

// The highest byte of a sample.
const MOST: u8 = 31;

// How many bytes are compared at once.
const BLOCK: usize = 256;

// Bit 0 is CS, then SK, DI, ORG and PE; the other bits say nothing.
impl From<u8> for Sample {
    ghost from_gives = { λ byte sample. sample ≡ levels byte };

    fn from(byte: u8) -> Sample {
        Sample {
            cs: byte % 2 == 1,
            sk: byte / 2 % 2 == 1,
            di: byte / 4 % 2 == 1,
            org: byte / 8 % 2 == 1,
            pe: byte / 16 % 2 == 1,
        }
    }
}

impl From<Sample> for u8 {
    ghost from_gives = { λ sample byte. byte ≡ byte_of sample };

    fn from(s: Sample) -> u8 {
        s.cs as u8 + 2 * s.sk as u8 + 4 * s.di as u8 + 8 * s.org as u8 + 16 * s.pe as u8
    }
}

impl Straps {
    pub const HIGH: Straps = Straps {
        org: true,
        pe: true,
    };

    // A sample at these levels.
    pub fn sample(self, cs: bool, sk: bool, di: bool) -> Sample
        ensures { result ≡ strapped self cs sk di }
    {
        Sample {
            cs,
            sk,
            di,
            org: self.org,
            pe: self.pe,
        }
    }
}

// The highest byte, 0 of none. It takes no branch for each, so that many are compared at once.
fn highest(samples: &[u8]) -> u8
    ensures { result ≡ fold max 0 samples.now }
{
    samples.iter().fold(0, |most: u8, byte| most.max(*byte))
}

// How many bytes lie before the first block of which one is above 31, or all of them. The last block may be shorter.
#[tactic(auto, using(crate::proofs::High::one_more))]
fn low_blocks(samples: &[u8]) -> usize
    ensures fits { result ≤ length samples.now }
    ensures low { high_at samples.now ≡ result + high_at (drop result samples.now) }
{
    let mut place = 0;
    while place < samples.len() {
        let end = place + BLOCK.min(samples.len() - place);
        if highest(&samples[place..end]) > MOST {
            break;
        }
        place = end;
    }
    place
}

// The place of the first byte above 31, with each looked at by itself.
fn next_high(samples: &[u8]) -> Option<usize>
    ensures { result ≡ position is_high samples.now }
{
    samples.iter().position(|byte| *byte > MOST)
}

// The same. What comes before its block is looked at a block at a time, and nothing behind it.
#[tactic(auto, using(crate::proofs::High::later_found, crate::proofs::High::none_found))]
fn high_position(samples: &[u8]) -> Option<usize>
    ensures { result ≡ position is_high samples.now }
{
    let place = low_blocks(samples);
    match next_high(&samples[place..]) {
        Some(after) => Some(place + after),
        None => None,
    }
}

// The same, or the length: a public promise, of which an `Option` would be another.
#[tactic(auto, using(crate::proofs::High::first_or_len))]
pub fn first_high(samples: &[u8]) -> usize
    ensures { result ≡ high_at samples.now }
{
    high_position(samples).unwrap_or(samples.len())
}

// Refuses samples of which one is above 31, at the place of the first such.
#[tactic(auto, using(crate::proofs::High::first_or_len))]
pub fn check_samples(samples: &[u8]) -> Result<(), Refusal>
    ensures { result ≡ samples_checked samples.now }
{
    match high_position(samples) {
        Some(place) => Err(Cause::HighSample.at(place)),
        None => Ok(()),
    }
}
