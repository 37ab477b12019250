//! What calls hand out.
use protocol::list::List;
use protocol::refusal::Refusal;

// An answer for each call, and the words of all calls, one after the other.
#[derive(Drop)]
pub struct Told<'s> {
    pub answers: List<'s, Result<(), Refusal>>,
    pub words: List<'s, u16>,
}
