// How far an opening has come.
ghost use Rattle.std.specs.Prelude.{◌≡◌, ◌+◌, ◌-◌, ◌*◌, ◌^◌, ◌<◌, ◌≤◌, MatchResult};
ghost use Rattle.session.specs.declared.refusals.Refusal.TheVariants.{BadLimit, PastLimit, BeforeStart};

use crate::refusals::Refusal;

// The largest limit of an opening, in words.
const MOST_WORDS: u64 = 1 << 50;

// The position in the keystream and the limit on it, both in bytes.
#[derive(Clone, Copy)]
pub(crate) struct Opening {
    position: u64,
    limit: u64,
    ghost some: { 0 < limit },
    ghost within: { position ≤ limit },
    ghost bounded: { limit ≤ 2 ^ 52 },
}

impl Opening {
    // At the start of so many words.
    pub(crate) fn of_words(words: u64) -> Result<Opening, Refusal>
        ensures { MatchResult result (λ o. (0 < words) × (words ≤ 2 ^ 50) × (o.position ≡ 0) × (o.limit ≡ 4 * words)) (λ e. (0 < words → 2 ^ 50 < words) × (e ≡ BadLimit)) }
    {
        if words == 0 || words > MOST_WORDS {
            return Err(Refusal::BadLimit);
        }
        Ok(Opening {
            position: 0,
            limit: 4 * words,
        })
    }

    pub(crate) fn position(self) -> u64
        ensures { result ≡ self.position }
    {
        self.position
    }

    // The bytes from here to the limit.
    pub(crate) fn left(self) -> u64
        ensures { result ≡ self.limit - self.position }
    {
        self.limit - self.position
    }

    // So many bytes further on.
    pub(crate) fn forward(self, n: u64) -> Result<Opening, Refusal>
        ensures { MatchResult result (λ o. (self.position + n ≤ self.limit) × (o.position ≡ self.position + n) × (o.limit ≡ self.limit)) (λ e. (self.limit < self.position + n) × (e ≡ PastLimit)) }
    {
        if n > self.left() {
            return Err(Refusal::PastLimit);
        }
        Ok(Opening {
            position: self.position + n,
            limit: self.limit,
        })
    }

    // So many bytes further back. Kept beside forward: the test, the sum and the refusal all differ.
    pub(crate) fn back(self, n: u64) -> Result<Opening, Refusal>
        ensures { MatchResult result (λ o. (n ≤ self.position) × (o.position ≡ self.position - n) × (o.limit ≡ self.limit)) (λ e. (self.position < n) × (e ≡ BeforeStart)) }
    {
        if n > self.position {
            return Err(Refusal::BeforeStart);
        }
        Ok(Opening {
            position: self.position - n,
            limit: self.limit,
        })
    }
}
