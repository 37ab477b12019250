//! An entry of the listing.
use chips::state::Verdict;
use protocol::instruction::Kind;
use protocol::parts::Width;

#[derive(Clone, Copy, Drop, PartialEq, Eq, Debug)]
pub struct Entry {
    // none where the count of bits was wrong
    pub kind: Option<Kind>,
    pub address: Option<u16>,
    pub data: Option<u16>,
    pub width: Width,
    // the place of the start bit's clock
    pub first: usize,
    // the place of the sample that made the entry
    pub last: usize,
    pub verdict: Verdict,
}

impl Entry {
    // What a place for an entry holds before one stands there.
    pub const NONE: Entry = Entry {
        kind: None,
        address: None,
        data: None,
        width: Width::Sixteen,
        first: 0,
        last: 0,
        verdict: Verdict::WrongCount,
    };
}
