//! What a call hands out, and how it is written.
ghost use Rattle.std.specs.Prelude.{◌≡◌, Some};
ghost use Rattle.histories.specs.Performing.{wanted_by};
ghost use Rattle.histories.specs.Texts.{call_text};

use crate::call::Call;
use std::fmt;

impl Call {
    // The most words that it hands out.
    pub fn words_wanted(self) -> usize
        ensures { result ≡ wanted_by self }
    {
        match self {
            Call::Read { .. } => 1,
            Call::Run { count, .. } => count,
            _ => 0,
        }
    }
}

// Its name and what it is given, as a user would write it.
impl fmt::Display for Call {
    ghost output = { λ call. Some (call_text call) };

    fn fmt<W: fmt::Write>(&self, f: &mut fmt::Formatter<W>) -> fmt::Result {
        match self {
            Call::Greet => write!(f, "greet"),
            Call::Settle => write!(f, "settle"),
            Call::Open => write!(f, "open"),
            Call::Shut => write!(f, "shut"),
            Call::Read { address } => write!(f, "read {address}"),
            Call::Run { address, count } => write!(f, "run {address} {count}"),
            Call::Write { address, value } => write!(f, "write {address} {value}"),
            Call::Erase { address } => write!(f, "erase {address}"),
            Call::Fill { value } => write!(f, "fill {value}"),
            Call::Clear => write!(f, "clear"),
        }
    }
}
