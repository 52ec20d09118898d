// Keys and IVs in the register before the first step, and read off it again.
ghost use Rattle.std.specs.Prelude.{◌≡◌, ℕ, ◌*◌, ◌≤◌, ◌⊎◌, length, MatchBool, ◌≢◌};
ghost use Rattle.snow.specs.Register.{numbered};
ghost use Rattle.snow.specs.Loading.{expanded, expanded_word, with_iv};
ghost use Rattle.snow.specs.Origins.{key_in, iv_in, Read};

use crate::bytes::put_words;
use std::array;

// Joined to a word, this inverts every bit.
const ONES: u32 = 0xFFFF_FFFF;

// A key of four words or of eight, its inverse words before it, until the register is full.
pub(crate) fn expand<const N: usize>(key: &[u32; N]) -> [u32; 16]
    requires { (N ≡ 4) ⊎ (N ≡ 8) }
    ensures { result ≡ expanded key.now }
{
    array::from_fn(
        |place: usize| -> u32
            requires sizes { (N ≡ 4) ⊎ (N ≡ 8) }
            ensures { result ≡ expanded_word N key.entry.now place }
        {
            let plain = key[place % N];
            if place / N % 2 == 0 {
                plain ^ ONES
            } else {
                plain
            }
        },
    )
}

pub(crate) fn with_iv(words: &[u32; 16], iv: &[u32; 4]) -> [u32; 16]
    ensures { result ≡ with_iv words.now iv.now }
{
    let mut joined = *words;
    joined[15] ^= iv[0];
    joined[12] ^= iv[1];
    joined[10] ^= iv[2];
    joined[9] ^= iv[3];
    joined
}

// The key that a register before the first step would hold, by the inverses of its words.
fn key_in<const N: usize>(words: &[u32; 16]) -> [u32; N]
    requires { N ≤ 16 }
    ensures { result ≡ key_in N words.now }
{
    array::from_fn(|place| words[place] ^ ONES)
}

// The IV that is joined to words of an expanded key.
fn iv_in(expanded: &[u32; 16], words: &[u32; 16]) -> [u32; 4]
    ensures { result ≡ iv_in expanded.now words.now }
{
    [
        words[15] ^ expanded[15],
        words[12] ^ expanded[12],
        words[10] ^ expanded[10],
        words[9] ^ expanded[9],
    ]
}

// Puts the key of so many words and the IV of a register before the first step at the front of two buffers, if it holds them.
pub(crate) fn name<const N: usize>(
    words: &[u32; 16],
    key: &mut [u8],
    iv: &mut [u8],
) -> Option<(usize, usize)>
    requires sizes { (N ≡ 4) ⊎ (N ≡ 8) }
    requires key_room { 255 ≤ length key.old }
    requires iv_room { 255 ≤ length iv.old }
    ensures { Read N words.now result key.old iv.old key.new iv.new }
{
    let mut k: [u32; N] = key_in(words);
    let expanded = expand(&k);
    let mut v = iv_in(&expanded, words);
    if with_iv(&expanded, &v) != *words {
        return None;
    }
    k.reverse();
    v.reverse();
    put_words(key, &k);
    put_words(iv, &v);
    Some((4 * N, 16))
}
