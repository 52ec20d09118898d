// The orders of a strip.
ghost use Rattle.std.specs.Prelude.{◌≡◌};
ghost use Rattle.strips.specs.Orders.{asked, kind};
ghost use Rattle.strips.specs.Replies.{reply_room};
ghost use Rattle.strips.specs.Runs.{is_end};

use crate::strip::words_for;

// An order with its size in words.
#[derive(Clone, Copy)]
pub(crate) struct Entry<'a> {
    pub(crate) order: Order<'a>,
    pub(crate) words: usize,
}

impl<'a> Entry<'a> {
    // An order that is its word alone.
    pub(crate) fn of_one_word(order: Order<'a>) -> Entry<'a>
        ensures { result ≡ record { order = order.entry; words = 1 } }
    {
        Entry { order, words: 1 }
    }
}

// An order of a strip: a call of a session, or the strip's end. Keys, IVs and payloads are parts of the strip.
#[derive(Clone, Copy)]
pub(crate) enum Order<'a> {
    End,
    Open {
        key: &'a [u8],
        iv: &'a [u8],
        // in words
        limit: u64,
    },
    Apply(&'a [u8]),
    Skip(u64),
    StepBack(u64),
    Position,
    Origin,
    Close,
}

impl Order<'_> {
    // The top four bits of the order's word, and of its reply where it is accepted. Kept as a number: it is the format's.
    pub(crate) fn kind(self) -> u32
        ensures { result ≡ kind (asked self.entry) }
    {
        match self {
            Order::End => 0,
            Order::Open { .. } => 1,
            Order::Apply(_) => 2,
            Order::Skip(_) => 3,
            Order::StepBack(_) => 4,
            Order::Position => 5,
            Order::Origin => 6,
            Order::Close => 7,
        }
    }

    // The most bytes that the reply takes where the order is accepted.
    pub(crate) fn reply_room(self) -> usize
        ensures { result ≡ reply_room (asked self.entry) }
    {
        match self {
            Order::Apply(payload) => 4 + 4 * words_for(payload.len()),
            Order::Position => 12,
            Order::Origin => 516,
            _ => 4,
        }
    }

    pub(crate) fn is_end(self) -> bool
        ensures { result ≡ is_end (asked self.entry) }
    {
        matches!(self, Order::End)
    }
}
