//! The trace file: the settings of a chip, and the samples put into it.
#![tactic(auto)]

ghost use Rattle.trace_file.specs.Form.{TookTrace};

use crate::form::take_contents;
use protocol::list::List;
use protocol::refusal::{Cause, Refusal};
use protocol::settings::Settings;

mod form;
mod records;

// The most bytes that a file has.
pub const LIMIT: usize = 65536;

// Adds the samples of a file to the list and answers its settings, which may fit no chip.
// The length of the file is judged before anything else. A refusal leaves the list as it was.
#[tactic(auto, unfolding(crate::specs::Form::trace_of))]
pub fn take_trace(file: &[u8], samples: &mut List<u8>) -> Result<Settings, Refusal>
    ensures { TookTrace file.now samples.old samples.new result }
{
    if file.len() > LIMIT {
        return Err(Cause::FileForm.at(LIMIT));
    }
    take_contents(file, samples)
}
