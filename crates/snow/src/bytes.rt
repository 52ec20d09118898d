// Words read from bytes, and written as bytes.
ghost use Rattle.std.specs.Prelude.{◌≡◌, ◌-◌, ◌*◌, ◌<◌, ◌≤◌, ◌++◌, length, drop};
ghost use Rattle.words.specs.Words.{words_bytes, word_at};
ghost use Rattle.snow.specs.Register.{numbered};

use std::array;
use words::word_at;

// The words of so many bytes, word 0 first: the bytes have the highest word first.
pub(crate) fn numbered_words<const N: usize>(bytes: &[u8]) -> [u32; N]
    requires { length bytes.now ≡ 4 * N }
    ensures { result ≡ numbered bytes.now }
{
    array::from_fn(
        |place: usize| -> u32
            requires { place < N }
            ensures { result ≡ word_at bytes.entry.now (N - 1 - place) }
        { word_at(bytes, N - 1 - place) },
    )
}

// The bytes of some words, at the front of a buffer. Kept by place: after a loop over `chunks_exact_mut` a proof knows no byte of the buffer.
pub(crate) fn put_words(buffer: &mut [u8], words: &[u32])
    requires { 4 * length words.now ≤ length buffer.old }
    ensures { buffer.new ≡ words_bytes words.now ++ drop (4 * length words.now) buffer.old }
{
    for (place, word) in words.iter().enumerate() {
        buffer[4 * place..4 * place + 4].copy_from_slice(&word.to_be_bytes());
    }
}
