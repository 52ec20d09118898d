// The finite state machine that a cipher has beside the register.
ghost use Rattle.std.specs.Prelude.{◌≡◌, ℕ, List, length, replicate, MatchBool, MatchResult, ◌≢◌};
ghost use Rattle.generator.specs.Meaning.{State};
ghost use Rattle.snow.specs.Register.{at};
ghost use Rattle.snow.specs.Machines.{Machine as Meaning, Sound};
ghost use Rattle.snow.specs.Cipher.{output};
ghost use Rattle.snow.specs.declared.refusals.FillFault.TheVariants.{WrongCount};

use crate::refusals::FillFault;

// What makes a cipher of the register. A machine's words are those of its registers, in their order.
pub trait Machine: Copy {
    ghost machine: { Meaning };

    ghost words: { Self → List ℕ };

    // Whether the cipher takes a key of so many bytes.
    fn takes(key_len: usize) -> bool
        ensures { result ≡ machine.takes key_len };

    // Zero words.
    fn new() -> Self
        ensures { words result ≡ replicate machine.size 0 };

    // The words of a list that has as many.
    fn of(list: &[u32]) -> Result<Self, FillFault>
        ensures { MatchResult result (λ m. (length list.now ≡ machine.size) × (words m ≡ list.now)) (λ f. (length list.now ≢ machine.size) × (f ≡ WrongCount)) };

    // Kept beside `==`: of a bound `PartialEq` a proof knows only that it is an equivalence.
    fn is_zero(&self) -> bool
        ensures { MatchBool result (words self.now ≡ replicate machine.size 0) (words self.now ≢ replicate machine.size 0) };

    // Its first two words, by which it gives to the keystream.
    fn first_two(&self) -> (u32, u32)
        ensures { result ≡ (at (words self.now) 0, at (words self.now) 1) };

    // A step that reads word 5 of the register.
    fn clock(&mut self, word: u32)
        ensures { words self.new ≡ machine.next (words self.old) word };

    // Back over a step that read this word.
    fn unclock(&mut self, word: u32)
        ensures { words self.new ≡ machine.back (words self.old) word };

    // What it gives with word 15 of the register.
    final fn output(&self, word: u32) -> u32
        ensures { result ≡ output (words self.now) word }
    {
        let (first, second) = self.first_two();
        word.wrapping_add(first) ^ second
    }

    ghost sound: { Sound machine };

    ghost fits: { (m : Self) → State machine.size (words m) };
}
