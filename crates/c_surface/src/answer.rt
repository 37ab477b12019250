//! What every function answers.
ghost use Rattle.std.specs.Prelude.{◌≡◌};
ghost use Rattle.c_surface.specs.Answers.{ended, answered};

use protocol::refusal::Refusal;

// A refusal by its number, 0 for none, with its place; and a length that each function tells the meaning of.
#[derive(Clone, Copy, Drop)]
#[repr(C)]
pub struct Answer {
    // numbers, since C has no enum of refusals
    pub refusal: u64,
    pub place: u64,
    pub length: u64,
}

impl Answer {
    pub(crate) fn new(outcome: Result<(), Refusal>, length: usize) -> Answer
        ensures { result ≡ ended outcome length }
    {
        let (refusal, place) = match outcome {
            Ok(()) => (0, 0),
            Err(refusal) => (u8::from(refusal.cause), refusal.place),
        };
        Answer {
            refusal: refusal as u64,
            place: place as u64,
            length: length as u64,
        }
    }
}

// A length, or a refusal with length 0.
impl From<Result<usize, Refusal>> for Answer {
    ghost from_gives = { λ outcome answer. answer ≡ answered outcome };

    fn from(outcome: Result<usize, Refusal>) -> Answer {
        match outcome {
            Ok(length) => Answer::new(Ok(()), length),
            Err(refusal) => Answer::new(Err(refusal), 0),
        }
    }
}
