//! The text of a listing.
ghost use Rattle.std.specs.Prelude.{◌≡◌, IfOk, string_bytes};
ghost use Rattle.listing.specs.Text.{listing_text};

use crate::show::Listing;
use protocol::refusal::Refusal;
use std::alloc::{AllocError, Global};
use traces::entry::Entry;

// The text of entries, and of how the reading of them ended.
pub fn text_of(
    heap: Global,
    entries: &[Entry],
    answer: Result<(), Refusal>,
) -> Result<String, AllocError>
    ensures { IfOk result (λ s. string_bytes s ≡ listing_text entries.now answer) }
{
    let listing = Listing { entries, answer };
    format!(in heap; "{listing}")
}
