// The register that SNOW 2.0 and SNOW 3G share, and the bare register as a generator.
ghost use Rattle.std.specs.Prelude.{◌≡◌, ℕ, ◌^◌, ◌<◌, ◌∷◌, length, replicate, slice_index, slice_index_or};
ghost use Rattle.snow.specs.Refusals.{Filled};
ghost use Rattle.snow.specs.Register.{feedback, shifted, unshifted, register};
ghost use Rattle.snow.specs.RegisterLaws.{register_lawful, register_fits};

use crate::bytes::{numbered_words, put_words};
use crate::refusals::FillFault;
use fields::{over_alpha, times_alpha};
use generator::{Fault, Generator, OriginFault, have_room};
use std::array;

// Sixteen words, a0 first.
#[derive(Clone, Copy)]
pub struct Register {
    pub(crate) words: [u32; 16],
    ghost count: { length words ≡ 16 },
    ghost fits: { (i : ℕ) → i < 16 → slice_index words i < 2 ^ 32 },
}

// Kept written out: `copy_within` and `rotate_left` take a third longer.
fn shifted(words: [u32; 16], new: u32) -> [u32; 16]
    ensures { result ≡ shifted words new }
{
    let [
        _,
        a1,
        a2,
        a3,
        a4,
        a5,
        a6,
        a7,
        a8,
        a9,
        a10,
        a11,
        a12,
        a13,
        a14,
        a15,
    ] = words;
    [
        a1, a2, a3, a4, a5, a6, a7, a8, a9, a10, a11, a12, a13, a14, a15, new,
    ]
}

// Back over a step that joined `fed` to what it shifted in. Made anew: `rotate_right` takes half as long again.
fn unshifted(words: [u32; 16], fed: u32) -> [u32; 16]
    ensures { result ≡ unshifted words fed }
{
    let old = over_alpha(words[15] ^ fed ^ words[1] ^ over_alpha(words[10]));
    array::from_fn(
        |place: usize| -> u32
            requires { place < 16 }
            ensures { result ≡ slice_index_or (old ∷ words) place 0 }
        { if place == 0 { old } else { words[place - 1] } },
    )
}

impl Register {
    // A register of zero words.
    pub fn new() -> Register
        ensures { result.words ≡ replicate 16 0 }
    {
        Register { words: [0; 16] }
    }

    // Takes the words of a list of sixteen.
    pub fn fill(&mut self, words: &[u32]) -> Result<(), FillFault>
        ensures { Filled 16 words.now self.old.words result self.new.words }
    {
        if words.len() != 16 {
            return Err(FillFault::WrongCount);
        }
        self.words.copy_from_slice(words);
        Ok(())
    }

    // What a plain step shifts in.
    pub(crate) fn feedback(&self) -> u32
        ensures { result ≡ feedback self.now.words }
    {
        times_alpha(self.words[0]) ^ self.words[2] ^ over_alpha(self.words[11])
    }

    // Each word in the place before it, and a new one in the last.
    pub(crate) fn shift_in(&mut self, new: u32)
        ensures { self.new.words ≡ shifted self.old.words new }
    {
        self.words = shifted(self.words, new);
    }

    // Back over a step that joined `fed` to what it shifted in.
    pub(crate) fn shift_out(&mut self, fed: u32)
        ensures { self.new.words ≡ unshifted self.old.words fed }
    {
        self.words = unshifted(self.words, fed);
    }
}

impl Generator for Register {
    ghost meaning = { register };

    ghost state = { λ x. x.words };

    ghost lawful = { register_lawful };

    ghost valid = { λ x. register_fits x.words x.count x.fits };

    fn load(&mut self, key: &[u8], iv: &[u8]) -> Result<(), Fault> {
        self.clear();
        if key.len() != 64 {
            return Err(Fault::Key(0));
        }
        if !iv.is_empty() {
            return Err(Fault::Iv(0));
        }
        self.words = numbered_words(key);
        Ok(())
    }

    fn forward(&mut self) {
        let new = self.feedback();
        self.shift_in(new);
    }

    fn backward(&mut self) {
        self.shift_out(0);
    }

    fn word(&mut self) -> u32 {
        self.words[0]
    }

    fn clear(&mut self) {
        *self = Register::new();
    }

    fn origin(&mut self, key: &mut [u8], iv: &mut [u8]) -> Result<(usize, usize), OriginFault> {
        if !have_room(key, iv) {
            return Err(OriginFault::ShortBuffer);
        }
        let mut words = self.words;
        words.reverse();
        put_words(key, &words);
        Ok((64, 0))
    }
}
