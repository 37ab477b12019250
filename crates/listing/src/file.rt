//! A trace file becomes its listing.
ghost use Rattle.std.specs.Prelude.{◌≡◌, length, IfOk, string_bytes};
ghost use Rattle.protocol.specs.Lists.{items, room};
ghost use Rattle.listing.specs.Outcome.{outcome_of};
ghost use Rattle.listing.specs.Listed.{file_text, Lists};

use crate::lines::text_of;
use protocol::list::List;
use protocol::refusal::Refusal;
use std::alloc::{AllocError, Global};
use trace_file::{LIMIT, take_trace};
use traces::entry::Entry;
use traces::reader::read_trace;

// How many entries a listing holds.
pub const ENTRIES: usize = 1024;

// The entries of a file, into an empty list.
#[tactic(auto, using(crate::proofs::Files::refused, crate::proofs::Files::given, crate::proofs::Files::file_comes, crate::proofs::Files::file_refused))]
fn list_entries(
    file: &[u8],
    samples: &mut List<u8>,
    entries: &mut List<Entry>,
) -> Result<(), Refusal>
    requires samples { samples.old.count ≡ 0 }
    requires limit { room samples.old ≡ 65536 }
    requires entries { entries.old.count ≡ 0 }
    ensures entries { items entries.new ≡ (outcome_of (room entries.old) file.now).entries }
    ensures answer { result ≡ (outcome_of (room entries.old) file.now).answer }
{
    let settings = take_trace(file, samples)?;
    read_trace(settings, samples.items(), entries)
}

// The text of a listing, and how the reading ended.
#[derive(Drop)]
pub struct FileListing {
    pub text: String,
    pub answer: Result<(), Refusal>,
}

// The listing, by way of places for the samples and the entries.
fn list_in(
    heap: Global,
    file: &[u8],
    samples: &mut [u8],
    entries: &mut [Entry],
) -> Result<FileListing, AllocError>
    requires samples { length samples.old ≡ 65536 }
    requires entries { length entries.old ≡ 1024 }
    ensures { IfOk result (λ l. Lists file.now (string_bytes l.text) l.answer) }
{
    let mut samples = List::new(samples);
    let mut entries = List::new(entries);
    let answer = list_entries(file, &mut samples, &mut entries);
    let text = text_of(heap, entries.items(), answer)?;
    Ok(FileListing { text, answer })
}

// The listing of a trace file.
pub fn list_file(heap: Global, file: &[u8]) -> Result<FileListing, AllocError>
    ensures { IfOk result (λ l. Lists file.now (string_bytes l.text) l.answer) }
{
    let mut samples = vec![in heap; 0u8; LIMIT]?;
    let mut entries = vec![in heap; Entry::NONE; ENTRIES]?;
    list_in(heap, file, &mut samples, &mut entries)
}

// The whole text of a listing.
pub fn listing(heap: Global, file: &[u8]) -> Result<String, AllocError>
    ensures { IfOk result (λ s. string_bytes s ≡ file_text file.now) }
{
    let listing = list_file(heap, file)?;
    Ok(listing.text)
}
