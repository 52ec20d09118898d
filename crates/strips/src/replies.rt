// Replies written into a buffer.
ghost use Rattle.std.specs.Prelude.{◌≡◌, ◌+◌, ◌-◌, ◌*◌, ◌<◌, ◌≤◌, length};
ghost use Rattle.strips.specs.Orders.{asked};
ghost use Rattle.strips.specs.Answered.{in_buffer};
ghost use Rattle.strips.specs.Reading.{words_for};
ghost use Rattle.strips.specs.Replies.{accepted_reply, refusal_reply};
ghost use Rattle.strips.specs.Runs.{reply_to};
ghost use Rattle.strips.specs.Turns.{Wrote, HasRoom};

use crate::bytes::{put, put_word};
use crate::orders::Order;
use crate::strip::words_for;
use session::Refusal;

// A buffer with replies at its front, and how many bytes these are.
#[derive(Drop)]
pub(crate) struct Replies<'a> {
    buffer: &'a mut [u8],
    written: usize,
}

impl<'a> Replies<'a> {
    // None written yet.
    pub(crate) fn new(buffer: &'a mut [u8]) -> Replies<'a>
        ensures same_reference { result.buffer.ghost_name ≡ buffer.entry.ghost_name }
        ensures none { (result.buffer.now ≡ buffer.old) × (result.written ≡ 0) }
    {
        Replies { buffer, written: 0 }
    }

    pub(crate) fn written(&self) -> usize
        ensures { result ≡ self.now.written }
    {
        self.written
    }

    // The bytes behind what is written.
    pub(crate) fn room(&self) -> usize
        ensures { result ≡ length self.now.buffer.now - self.now.written }
    {
        self.buffer.len().saturating_sub(self.written)
    }

    // Replies to an accepted order with some bytes.
    fn put_accepted(&mut self, kind: u32, bytes: &[u8])
        requires { (kind < 8) × (length bytes.now ≤ 64000) × (self.old.written + 4 + 4 * words_for (length bytes.now) ≤ length self.old.buffer.now) }
        ensures { Wrote self.old (accepted_reply kind bytes.now) self.new }
    {
        let count = bytes.len();
        let at = self.written;
        let end = at + 4 + 4 * words_for(count);
        let buffer = &mut *self.buffer;
        put_word(buffer, at, (kind << 28) + count as u32);
        put(buffer, at + 4, bytes);
        buffer[at + 4 + count..end].fill(0);
        self.written = end;
    }

    // Replies with a refusal of the order that begins at word `place`.
    pub(crate) fn put_refusal(&mut self, number: u8, member: u8, place: usize)
        requires { (number < 32) × (place ≤ 16000) × (self.old.written + 4 ≤ length self.old.buffer.now) }
        ensures { Wrote self.old (refusal_reply number member place) self.new }
    {
        let word = (15 << 28)
            + (u32::from(number) << 20)
            + (u32::from(member) << 16)
            + place as u32;
        let buffer = &mut *self.buffer;
        put_word(buffer, self.written, word);
        self.written += 4;
    }

    // Replies to the order that begins at word `place`. The bytes of a reply are at the front of `scratch`.
    pub(crate) fn put_answer(
        &mut self,
        place: usize,
        order: Order<'_>,
        answer: Result<usize, Refusal>,
        scratch: &[u8],
    )
        requires { (HasRoom (length self.old.buffer.now) self.old.written answer (length scratch.now)) × (place ≤ 16000) }
        ensures { Wrote self.old (reply_to place (asked order.entry) (in_buffer answer scratch.now)) self.new }
    {
        match answer {
            Ok(count) => self.put_accepted(order.kind(), &scratch[0..count]),
            Err(refusal) => self.put_refusal(refusal.number(), refusal.member(), place),
        }
    }
}
