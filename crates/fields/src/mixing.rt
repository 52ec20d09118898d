// Mixing of the bytes of a word.
ghost use Rattle.std.specs.Prelude.{◌≡◌};
ghost use Rattle.fields.specs.Doubling.{doubled};
ghost use Rattle.fields.specs.Mixing.{mixed};
ghost use Rattle.fields.specs.Theorems.{MixingReturns};

use crate::doubling::double;

// Mixing of the bytes of a word over the doubling with a tap byte. Mixing four times gives the word back.
pub fn mix(word: u32, tap: u8) -> u32
    ensures value { result ≡ mixed (doubled tap) word }
    ensures four_times { MixingReturns }
{
    let bytes = word.to_be_bytes();
    let [w0, w1, w2, w3] = bytes;
    let [d0, d1, d2, d3] = bytes.map(|byte| double(byte, tap));
    u32::from_be_bytes([
        d0 ^ w1 ^ w2 ^ (d3 ^ w3),
        (d0 ^ w0) ^ d1 ^ w2 ^ w3,
        w0 ^ (d1 ^ w1) ^ d2 ^ w3,
        w0 ^ w1 ^ (d2 ^ w2) ^ d3,
    ])
}
