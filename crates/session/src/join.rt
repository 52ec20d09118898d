// Bytes joined with a generator's keystream. Kept with both as parameters: the generator is the session's and the bytes are the caller's.
ghost use Rattle.std.specs.Prelude.{◌≡◌, ℕ, ◌+◌, ◌%◌, ◌≤◌, List, length};
ghost use Rattle.words.specs.Words.{Bytes};
ghost use Rattle.generator.specs.Meaning.{Meaning};
ghost use Rattle.session.specs.View.{placed};
ghost use Rattle.session.specs.Calls.{Joined, JoinedAll};

use generator::Generator;
use words::{are_bytes, byte_at};

// Each byte with its keystream byte, a byte at a time; the first with byte `from` mod 4 of the present word. The generator ends at the state
// of the byte behind the last.
fn join_bytes<G: Generator>(generator: &mut G, from: u64, bytes: &mut [u8])
    ensures { JoinedAll G.Generator.meaning (placed (G.Generator.state generator.old) from) bytes.old bytes.new (G.Generator.state generator.new) }
{
    let mut place = from % 4;
    let mut word = generator.word();
    for byte in bytes.iter_mut() {
        *byte ^= byte_at(word, place);
        place += 1;
        if place == 4 {
            generator.forward();
            word = generator.word();
            place = 0;
        }
    }
}

// Four bytes from `at` on with those of a word.
fn join_word(bytes: &mut [u8], at: usize, word: u32)
    requires { (at + 4 ≤ length bytes.old) × (Bytes bytes.old) }
    ensures bytes { Bytes bytes.new }
    ensures joined { (m : Meaning) (s : List ℕ) (p : ℕ) → p % 4 ≡ 0 → word ≡ m.word s → Joined m (placed s p) at 4 bytes.old bytes.new }
{
    let four = u32::from_be_bytes([bytes[at], bytes[at + 1], bytes[at + 2], bytes[at + 3]]);
    bytes[at..at + 4].copy_from_slice(&(four ^ word).to_be_bytes());
}

// The bytes of whole words, a word at a time.
fn join_words<G: Generator>(generator: &mut G, bytes: &mut [u8])
    requires { length bytes.old % 4 ≡ 0 }
    ensures { JoinedAll G.Generator.meaning (placed (G.Generator.state generator.old) 0) bytes.old bytes.new (G.Generator.state generator.new) }
{
    are_bytes(bytes);
    // Kept by index: after a loop over `chunks_exact_mut` a proof knows no element of the slice.
    for i in 0..bytes.len() / 4 {
        join_word(bytes, 4 * i, generator.word());
        generator.forward();
    }
}

// Each byte with its keystream byte, the first with byte `from`: whole words at once, and the bytes before and behind them one by one. The
// generator ends at the state of the byte behind the last.
pub(crate) fn join_all<G: Generator>(generator: &mut G, from: u64, bytes: &mut [u8])
    ensures { JoinedAll G.Generator.meaning (placed (G.Generator.state generator.old) from) bytes.old bytes.new (G.Generator.state generator.new) }
{
    let before_word = ((4 - from % 4) % 4) as usize;
    let begun = before_word.min(bytes.len());
    let (head, rest) = bytes.split_at_mut(begun);
    let whole = rest.len() / 4 * 4;
    let (words, tail) = rest.split_at_mut(whole);
    join_bytes(generator, from, head);
    join_words(generator, words);
    join_bytes(generator, 0, tail);
}
