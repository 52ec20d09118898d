// A strip, and the orders read from it.
ghost use Rattle.std.specs.Prelude.{◌≡◌, ◌+◌, ◌/◌, ◌^◌, ◌<◌, ◌≤◌, true, false, length, MatchResult};
ghost use Rattle.words.specs.Words.{word_at};
ghost use Rattle.strips.specs.declared.stops.Stop.TheVariants.{BadLength, BadWord};
ghost use Rattle.strips.specs.Reading.{filled, part, words_for, reading, reads, reads_opening, reads_payload, Within};
ghost use Rattle.strips.specs.Runs.{bad_length};

use crate::bytes::is_zero;
use crate::orders::{Entry, Order};
use crate::stops::Stop;

// The longest strip, in bytes.
pub(crate) const MOST_BYTES: usize = 64_000;

// The words that hold so many bytes.
pub(crate) fn words_for(count: usize) -> usize
    ensures { result ≡ words_for count }
{
    count.div_ceil(4)
}

// Whole words, and not too many.
#[derive(Clone, Copy)]
pub(crate) struct Strip<'a> {
    bytes: &'a [u8],
    ghost short: { length bytes.now ≤ 64000 },
}

impl<'a> Strip<'a> {
    pub(crate) fn new(bytes: &'a [u8]) -> Result<Strip<'a>, Stop>
        ensures { MatchResult result (λ s. (bad_length bytes.now ≡ false) × (s.bytes.now ≡ bytes.now)) (λ e. (bad_length bytes.now ≡ true) × (e ≡ BadLength)) }
    {
        if bytes.len() % 4 != 0 || bytes.len() > MOST_BYTES {
            return Err(Stop::BadLength);
        }
        Ok(Strip { bytes })
    }

    // How many words it has.
    pub(crate) fn words(&self) -> usize
        ensures { result ≡ length self.now.bytes.now / 4 }
    {
        self.bytes.len() / 4
    }

    pub(crate) fn word(&self, place: usize) -> u32
        ensures { result ≡ word_at self.now.bytes.now place }
    {
        words::word_at(self.bytes, place)
    }

    // `count` bytes from a word on, which zeros have to fill to whole words.
    fn part(&self, word: usize, count: usize) -> Result<&'a [u8], Stop>
        requires { word + words_for count ≤ length self.now.bytes.now / 4 }
        ensures { MatchResult result (λ b. (filled self.now.bytes.now word count ≡ true) × (b.now ≡ part self.now.bytes.now word count)) (λ e. (filled self.now.bytes.now word count ≡ false) × (e ≡ BadWord)) }
    {
        let from = 4 * word;
        let behind = 4 * (word + words_for(count));
        if !is_zero(&self.bytes[from + count..behind]) {
            return Err(Stop::BadWord);
        }
        Ok(&self.bytes[from..from + count])
    }

    // The body of an opening whose word has these bits: a limit, a key and an IV.
    #[tactic(auto, unfolding(crate::specs::Reading::reads_opening))]
    fn read_opening(&self, place: usize, bits: usize) -> Result<Entry<'a>, Stop>
        requires { (place < length self.now.bytes.now / 4) × (bits < 2 ^ 28) }
        ensures reads { reading result ≡ reads_opening self.now.bytes.now place bits }
        ensures within { Within self.now.bytes.now place result }
    {
        let key_len = bits >> 20;
        let iv_len = (bits >> 12) % 256;
        let key_at = place + 2;
        let iv_at = key_at + words_for(key_len);
        let words = 2 + words_for(key_len) + words_for(iv_len);
        if place + words > self.words() {
            return Err(Stop::CutShort);
        }
        let key = self.part(key_at, key_len)?;
        let iv = self.part(iv_at, iv_len)?;
        let limit = u64::from(self.word(place + 1));
        let order = Order::Open { key, iv, limit };
        Ok(Entry { order, words })
    }

    // The payload of so many bytes that follows the order's word.
    #[tactic(auto, unfolding(crate::specs::Reading::reads_payload))]
    fn read_payload(&self, place: usize, count: usize) -> Result<Entry<'a>, Stop>
        requires { (place < length self.now.bytes.now / 4) × (count < 2 ^ 28) }
        ensures reads { reading result ≡ reads_payload self.now.bytes.now place count }
        ensures within { Within self.now.bytes.now place result }
    {
        let words = 1 + words_for(count);
        if place + words > self.words() {
            return Err(Stop::CutShort);
        }
        let payload = self.part(place + 1, count)?;
        let order = Order::Apply(payload);
        Ok(Entry { order, words })
    }

    // The order that begins at word `place`.
    pub(crate) fn order_at(&self, place: usize) -> Result<Entry<'a>, Stop>
        ensures reads { reading result ≡ reads self.now.bytes.now place }
        ensures within { Within self.now.bytes.now place result }
    {
        if place >= self.words() {
            return Err(Stop::CutShort);
        }
        let word = self.word(place);
        let bits = (word % (1 << 28)) as usize;
        // Kept as numbers: the kinds stand once here and once in `Order::kind`, and an enum of them would have both tables too.
        match word >> 28 {
            0 if bits == 0 => Ok(Entry::of_one_word(Order::End)),
            1 if bits % 4096 == 0 => self.read_opening(place, bits),
            2 => self.read_payload(place, bits),
            3 => Ok(Entry::of_one_word(Order::Skip(bits as u64))),
            4 => Ok(Entry::of_one_word(Order::StepBack(bits as u64))),
            5 if bits == 0 => Ok(Entry::of_one_word(Order::Position)),
            6 if bits == 0 => Ok(Entry::of_one_word(Order::Origin)),
            7 if bits == 0 => Ok(Entry::of_one_word(Order::Close)),
            _ => Err(Stop::BadWord),
        }
    }
}
