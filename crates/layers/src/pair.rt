ghost use Rattle.std.specs.Prelude.{◌≡◌, ◌++◌};
ghost use Rattle.layers.specs.Pair.{pair, BothLoaded};
ghost use Rattle.layers.specs.PairLaws.{pair_lawful};
ghost use Rattle.generator.proofs.States.{joined_state};

use crate::origins::origin_of;
use crate::parts::{at_place, join, split};
use generator::{Fault, Generator, OriginFault, have_room};

// Two generators that run side by side; the exclusive or of their words is its keystream.
#[derive(Drop)]
pub struct Pair<A, B> {
    first: A,
    second: B,
}

impl<A, B> Pair<A, B> {
    pub fn new(first: A, second: B) -> Pair<A, B>
        ensures { (result.first ≡ first) × (result.second ≡ second) }
    {
        Pair { first, second }
    }

    // The first and the second, in the states that they have.
    pub fn into_parts(self) -> (A, B)
        ensures { (result.0 ≡ self.first) × (result.1 ≡ self.second) }
    {
        let Pair { first, second } = self;
        (first, second)
    }
}

impl<A: Generator, B: Generator> Pair<A, B> {
    // Loads both, unless a fault comes first.
    fn load_both(&mut self, key: &[u8], iv: &[u8]) -> Result<(), Fault>
        ensures { BothLoaded A.meaning B.meaning key.now iv.now result (A.state self.new.first) (B.state self.new.second) }
    {
        let (first_key, second_key) = split(key).ok_or(Fault::Key(0))?;
        let (first_iv, second_iv) = split(iv).ok_or(Fault::Iv(0))?;
        self.first
            .load(first_key, first_iv)
            .map_err(|fault| at_place(fault, 1))?;
        self.second
            .load(second_key, second_iv)
            .map_err(|fault| at_place(fault, 2))
    }
}

impl<A: Generator, B: Generator> Generator for Pair<A, B> {
    ghost meaning = { pair A.meaning B.meaning };

    ghost state = { λ x. A.state x.first ++ B.state x.second };

    ghost lawful = { pair_lawful A.meaning B.meaning A.Generator.lawful B.Generator.lawful };

    ghost valid = { λ x. joined_state A.meaning.size B.meaning.size (A.Generator.valid x.first) (B.Generator.valid x.second) };

    fn load(&mut self, key: &[u8], iv: &[u8]) -> Result<(), Fault> {
        let loaded = self.load_both(key, iv);
        if loaded.is_err() {
            self.clear();
        }
        loaded
    }

    fn forward(&mut self) {
        self.first.forward();
        self.second.forward();
    }

    fn backward(&mut self) {
        self.first.backward();
        self.second.backward();
    }

    fn word(&mut self) -> u32 {
        self.first.word() ^ self.second.word()
    }

    fn clear(&mut self) {
        self.first.clear();
        self.second.clear();
    }

    // Nothing is written before both are named, since a refusal leaves the buffers as they are.
    fn origin(&mut self, key: &mut [u8], iv: &mut [u8]) -> Result<(usize, usize), OriginFault> {
        if !have_room(key, iv) {
            return Err(OriginFault::ShortBuffer);
        }
        let first = origin_of(&mut self.first)?;
        let second = origin_of(&mut self.second)?;
        let (first_key, second_key) = (first.key.as_slice(), second.key.as_slice());
        let (first_iv, second_iv) = (first.iv.as_slice(), second.iv.as_slice());
        if first_key.len() + second_key.len() > 254 || first_iv.len() + second_iv.len() > 254 {
            return Err(OriginFault::NoOrigin);
        }
        let key_len = join(key, first_key, second_key);
        let iv_len = join(iv, first_iv, second_iv);
        Ok((key_len, iv_len))
    }
}
