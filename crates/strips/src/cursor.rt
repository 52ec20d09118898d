// How far a strip is answered.
ghost use Rattle.std.specs.Prelude.{◌≡◌, ◌+◌, ◌/◌, ◌<◌, ◌≤◌, cond, length};
ghost use Rattle.strips.specs.Reading.{reading, reads, Within};

use crate::orders::Entry;
use crate::stops::Stop;
use crate::strip::Strip;

// The number of the word where the next order begins, and how many of the orders before it the session refused.
#[derive(Clone, Copy)]
pub(crate) struct Cursor<'a> {
    strip: Strip<'a>,
    place: usize,
    refused: usize,
    ghost within: { place ≤ length strip.bytes.now / 4 },
    ghost counted: { refused ≤ place },
}

impl<'a> Cursor<'a> {
    // Before the first order.
    pub(crate) fn new(strip: Strip<'a>) -> Cursor<'a>
        ensures { (result.strip ≡ strip.entry) × (result.place ≡ 0) × (result.refused ≡ 0) }
    {
        Cursor {
            strip,
            place: 0,
            refused: 0,
        }
    }

    pub(crate) fn place(&self) -> usize
        ensures place { result ≡ self.now.place }
        ensures near { result ≤ 16000 }
    {
        self.place
    }

    pub(crate) fn refused(&self) -> usize
        ensures { result ≡ self.now.refused }
    {
        self.refused
    }

    // The next order.
    pub(crate) fn order(&self) -> Result<Entry<'a>, Stop>
        ensures reads { reading result ≡ reads self.now.strip.bytes.now self.now.place }
        ensures within { Within self.now.strip.bytes.now self.now.place result }
    {
        self.strip.order_at(self.place)
    }

    // Behind an order of so many words.
    pub(crate) fn behind(&self, words: usize, is_refused: bool) -> Cursor<'a>
        requires { (0 < words) × (self.now.place + words ≤ length self.now.strip.bytes.now / 4) }
        ensures { (result.strip ≡ self.now.strip) × (result.place ≡ self.now.place + words) × (result.refused ≡ self.now.refused + cond is_refused 1 0) }
    {
        Cursor {
            strip: self.strip,
            place: self.place + words,
            refused: self.refused + usize::from(is_refused),
        }
    }
}
