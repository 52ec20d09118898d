// A keystream generator: what every one of them means, keeps and does.
#![tactic(auto)]

ghost use Rattle.std.specs.Prelude.{◌≡◌, ℕ, List, MatchBool};
ghost use Rattle.generator.specs.Refusals.{fault_number, member, origin_number};
ghost use Rattle.generator.specs.Meaning.{Meaning, Lawful, State, times, zeros};
ghost use Rattle.generator.specs.Calls.{Loaded, Named, Roomy, Cramped};

// The longest key and the longest IV, in bytes. A buffer for one has room for the longest.
pub const LONGEST: usize = 255;

// Why a key or an IV has no load, with the member of a combined generator that said so; 0 is the generator itself.
#[derive(Clone, Copy, PartialEq, Eq, Debug)]
pub enum Fault {
    Key(u8),
    Iv(u8),
}

impl Fault {
    // The number of this refusal.
    pub fn number(self) -> u8
        ensures { result ≡ fault_number self }
    {
        match self {
            Fault::Key(_) => 3,
            Fault::Iv(_) => 4,
        }
    }

    pub fn member(self) -> u8
        ensures { result ≡ member self }
    {
        match self {
            Fault::Key(member) => member,
            Fault::Iv(member) => member,
        }
    }
}

// Why no key and IV were named.
#[derive(Clone, Copy, PartialEq, Eq, Debug)]
pub enum OriginFault {
    ShortBuffer,
    NoOrigin,
}

impl OriginFault {
    // The number of this refusal.
    pub fn number(self) -> u8
        ensures { result ≡ origin_number self }
    {
        match self {
            OriginFault::ShortBuffer => 9,
            OriginFault::NoOrigin => 10,
        }
    }
}

// Whether two buffers have room for any key and any IV.
pub fn have_room(key: &[u8], iv: &[u8]) -> bool
    ensures { MatchBool result (Roomy key.now iv.now) (Cramped key.now iv.now) }
{
    key.len() >= LONGEST && iv.len() >= LONGEST
}

// Code over any generator is proved from these contracts and laws alone. `meaning` says what the generator is, and `state` which state of it
// a value holds.
pub trait Generator {
    ghost meaning: { Meaning };

    ghost state: { Self → List ℕ };

    // Takes the load of key and IV, or answers the fault and is cleared. Kept as two slices, here and in the calls above: C hands them in so, and a
    // struct of both would be taken apart at each call.
    fn load(&mut self, key: &[u8], iv: &[u8]) -> Result<(), Fault>
        ensures { Loaded meaning key.now iv.now result (state self.new) };

    fn forward(&mut self)
        ensures { state self.new ≡ meaning.next (state self.old) };

    fn backward(&mut self)
        ensures { state self.new ≡ meaning.back (state self.old) };

    // The keystream word of the present state; it may step, and ends where it began.
    fn word(&mut self) -> u32
        ensures value { result ≡ meaning.word (state self.old) }
        ensures same { state self.new ≡ state self.old };

    // Zero words.
    fn clear(&mut self)
        ensures { state self.new ≡ zeros meaning };

    // The key and the IV whose load is the present state, at the front of the two buffers, and their lengths; it may step, and ends where it began.
    // Kept as buffers of the caller's: nothing here takes memory from a heap, and refusal 9 is about their lengths.
    fn origin(&mut self, key: &mut [u8], iv: &mut [u8]) -> Result<(usize, usize), OriginFault>
        ensures named { Named meaning 0 (state self.old) key.old iv.old result key.new iv.new }
        ensures same { state self.new ≡ state self.old };

    // Many steps forward.
    final fn forward_by(&mut self, words: u64)
        ensures { state self.new ≡ times words meaning.next (state self.old) }
    {
        for _ in 0..words {
            self.forward();
        }
    }

    // Many steps back. Kept beside forward_by: one loop over a closure would need a contract for what the closure does.
    final fn backward_by(&mut self, words: u64)
        ensures { state self.new ≡ times words meaning.back (state self.old) }
    {
        for _ in 0..words {
            self.backward();
        }
    }

    ghost lawful: { Lawful meaning };

    ghost valid: { (x : Self) → State meaning.size (state x) };
}
