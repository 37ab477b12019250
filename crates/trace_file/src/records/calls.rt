//! One record after the other.
ghost use Rattle.std.specs.Prelude.{◌≡◌, length, Ok};
ghost use Rattle.std.specs.Iterator.{at_most};
ghost use Rattle.protocol.specs.Lists.{Adds};
ghost use Rattle.trace_file.specs.Form.{bind, count_of, record_of};
ghost use Rattle.trace_file.specs.Steps.{rest_of, count_read, record_read, next_read, samples_left, Next, AddsAll};

use crate::records::Records;
use protocol::list::List;
use protocol::refusal::{Cause, Refusal};

// The bytes of a record before its samples.
const HEAD: usize = 4;

impl<'a> Records<'a> {
    // How many samples the first record has, and the bytes behind that count.
    fn take_count(self) -> Result<(u16, &'a [u8]), Refusal>
        ensures { count_read result ≡ count_of (rest_of self.entry) }
    {
        match self.bytes {
            [0x93, 0x02, high, low, bytes @ ..] => Ok((u16::from_be_bytes([*high, *low]), bytes)),
            _ => Err(Cause::FileForm.at(self.place)),
        }
    }

    // The samples of the first record, and the records behind it.
    fn take_record(self) -> Result<(&'a [u8], Records<'a>), Refusal>
        ensures { record_read result ≡ record_of (rest_of self.entry) }
    {
        let (count, bytes) = self.take_count()?;
        match bytes.split_at_checked(count as usize) {
            Some((samples, bytes)) => {
                let place = self.place + HEAD + samples.len();
                Ok((samples, Records { place, bytes }))
            }
            None => Err(Cause::FileForm.at(self.place)),
        }
    }
}

// The samples of each record. Nothing comes behind a record that is bad.
impl<'a> Iterator for Records<'a> {
    type Item = Result<&'a [u8], Refusal>;

    ghost next_gives = { λ records samples rest. Next (rest_of records) (next_read samples) (rest_of rest) };

    ghost remaining = { λ records. at_most (length records.bytes.now) };

    fn next(&mut self) -> Option<Result<&'a [u8], Refusal>> {
        if self.bytes.is_empty() {
            return None;
        }
        match self.take_record() {
            Ok((samples, rest)) => {
                *self = rest;
                Some(Ok(samples))
            }
            Err(refusal) => {
                self.bytes = &[];
                Some(Err(refusal))
            }
        }
    }
}

// Adds the samples of a record. It may have none, and then the list is not asked.
fn add_record(list: &mut List<u8>, samples: &[u8]) -> Result<(), Refusal>
    ensures { Adds list.old samples.now 0 list.new result }
{
    if samples.is_empty() {
        return Ok(());
    }
    list.extend(samples, 0)
}

impl Records<'_> {
    // How many samples there are in all, where every record has its form.
    #[tactic(auto, using(crate::proofs::Passing::left_none, crate::proofs::Passing::left_bad))]
    pub(crate) fn count_samples(self) -> Result<usize, Refusal>
        ensures { result ≡ bind (samples_left (rest_of self.entry)) (λ samples. Ok (length samples)) }
    {
        let mut count = 0;
        for samples in self {
            count += samples?.len();
        }
        Ok(count)
    }

    // Adds all samples to a list that has room for them.
    #[tactic(auto, using(crate::proofs::Passing::left_none, crate::proofs::Passing::adds_none))]
    pub(crate) fn add_samples(self, list: &mut List<u8>) -> Result<(), Refusal>
        ensures { AddsAll (samples_left (rest_of self.entry)) list.old list.new result }
    {
        for samples in self {
            add_record(list, samples?)?;
        }
        Ok(())
    }
}
