// The calls of a session as values.
use session::Refusal;

// A call of a session to which a message is lent.
#[derive(Clone, Copy)]
pub enum Request<'a> {
    Open {
        key: &'a [u8],
        iv: &'a [u8],
        limit: u64,
    },
    ApplyToMessage {
        start: usize,
        count: usize,
    },
    ApplyElsewhere {
        bytes: &'a [u8],
        start: usize,
        count: usize,
    },
    Skip(u64),
    StepBack(u64),
    Position,
    Origin,
    Close,
}

// What a call answered, with what it left in a buffer of its own.
#[derive(Drop)]
pub enum Answer {
    Done(Result<(), Refusal>),
    Through(Result<(), Refusal>, Vec<u8>),
    Place(Result<u64, Refusal>),
    Names(Result<(usize, usize), Refusal>, Vec<u8>, Vec<u8>),
}
