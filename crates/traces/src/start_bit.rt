//! The start bit that came last, and the entry that a decision then makes.
ghost use Rattle.std.specs.Prelude.{◌≡◌};
ghost use Rattle.traces.specs.Entries.{address_of, data_of, start_after, entry_of};

use crate::entry::Entry;
use chips::state::{Decision, Verdict};
use protocol::instruction::Kind;
use protocol::parts::Width;

#[derive(Clone, Copy)]
pub struct StartBit {
    pub(crate) width: Width,
    pub(crate) place: usize,
}

fn address(kind: Kind, cell: u16) -> Option<u16>
    ensures { result ≡ address_of kind cell }
{
    match kind {
        Kind::Read | Kind::Write | Kind::Erase => Some(cell),
        _ => None,
    }
}

fn data(kind: Kind, value: u16) -> Option<u16>
    ensures { result ≡ data_of kind value }
{
    kind.has_data().then_some(value)
}

impl StartBit {
    // Before any start bit came. No entry comes before one, so that an `Option` would ask for a case that never is.
    pub(crate) const NONE: StartBit = StartBit {
        width: Width::Sixteen,
        place: 0,
    };

    // The entry that the decision of the sample at `last` makes, if any. A wrong count has the width of its start bit.
    fn entry(self, last: usize, decision: Decision) -> Option<Entry>
        ensures { result ≡ entry_of self last decision }
    {
        let (kind, address, data, width, verdict) = match decision {
            Decision::Nothing | Decision::Start { .. } | Decision::Data { .. } => return None,
            Decision::Address { width, cell } => (
                Some(Kind::Read),
                Some(cell),
                None,
                width,
                Verdict::CarriedOut,
            ),
            Decision::Instruction {
                kind,
                width,
                cell,
                value,
                verdict,
            } => (
                Some(kind),
                address(kind, cell),
                data(kind, value),
                width,
                verdict,
            ),
            Decision::WrongCount => (None, None, None, self.width, Verdict::WrongCount),
        };
        Some(Entry {
            kind,
            address,
            data,
            width,
            first: self.place,
            last,
            verdict,
        })
    }

    // One decision more, at `place`: a start bit is kept, and another may make an entry.
    pub(crate) fn enter(&mut self, place: usize, decision: Decision) -> Option<Entry>
        ensures next { self.new ≡ start_after self.old place decision }
        ensures made { result ≡ entry_of self.old place decision }
    {
        if let Decision::Start { width } = decision {
            *self = StartBit { width, place };
        }
        self.entry(place, decision)
    }
}
