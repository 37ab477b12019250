//! Listings into a buffer, and the number of entries.
ghost use Rattle.std.specs.Prelude.{◌≡◌, IfOk};
ghost use Rattle.traces.specs.Reading.{readable};
ghost use Rattle.listing.specs.Outcome.{of_chip};
ghost use Rattle.c_surface.specs.Answers.{settings_from, too_short};
ghost use Rattle.c_surface.specs.Filling.{filled_with, text_answer, TextGiven, count_answer, Counted};

use crate::answer::Answer;
use crate::settings::settings_from;
use listing::file::list_file;
use protocol::list::List;
use protocol::refusal::{Cause, Refusal};
use protocol::settings::Settings;
use std::alloc::{AllocError, Global};
use traces::entry::Entry;
use traces::reader::read_trace;

// The bytes at the front of the buffer, if they fit.
fn give(outcome: Result<(), Refusal>, bytes: &[u8], buffer: &mut [u8]) -> Answer
    ensures answer { result ≡ text_answer outcome bytes.now buffer.old }
    ensures buffer { buffer.new ≡ filled_with bytes.now buffer.old }
{
    let mut list = List::new(buffer);
    match list.extend(bytes, 0) {
        Ok(()) => Answer::new(outcome, bytes.len()),
        Err(refusal) => Answer::new(Err(refusal), bytes.len()),
    }
}

// The heap has no memory.
impl From<AllocError> for Answer {
    ghost from_gives = { λ _ answer. answer ≡ too_short 0 };

    fn from(_: AllocError) -> Answer {
        Err(Cause::NoRoom.into()).into()
    }
}

// The listing of a trace file. The length is that of its text, even where it does not fit.
#[unsafe(no_mangle)]
pub extern "C" fn kippercrag_list_trace(heap: Global, file: &[u8], text: &mut [u8]) -> Answer
    ensures { TextGiven file.now text.old text.new result }
{
    match list_file(heap, file) {
        Ok(listing) => give(listing.answer, listing.text.as_bytes(), text),
        Err(error) => error.into(),
    }
}

fn count(
    heap: Global,
    settings: Settings,
    samples: &[u8],
    room: usize,
) -> Result<Answer, AllocError>
    ensures { IfOk result (λ a. a ≡ count_answer (of_chip room (readable settings samples.now) samples.now)) }
{
    let mut entries = vec![in heap; Entry::NONE; room]?;
    let mut entries = List::new(&mut entries);
    let result = read_trace(settings, samples, &mut entries);
    Ok(Answer::new(result, entries.len()))
}

// How many entries the reader makes of a trace, with room for so many. The length is their number. C names a chip by five numbers.
#[unsafe(no_mangle)]
pub extern "C" fn kippercrag_count_entries(
    heap: Global,
    part: u8,
    edition: u8,
    write: u16,
    eral: u16,
    wrall: u16,
    samples: &[u8],
    room: usize,
) -> Answer
    ensures { Counted (settings_from part edition write eral wrall) samples.now room result }
{
    let settings = settings_from(part, edition, write, eral, wrall);
    match count(heap, settings, samples, room) {
        Ok(answer) => answer,
        Err(error) => error.into(),
    }
}
