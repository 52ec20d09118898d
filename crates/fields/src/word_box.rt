// Word boxes: each byte of a word through a byte box, then mixing.
ghost use Rattle.std.specs.Prelude.{◌≡◌, ℕ, ◌<◌};
ghost use Rattle.fields.specs.Doubling.{doubled};
ghost use Rattle.fields.specs.Boxes.{undone};
ghost use Rattle.fields.specs.Mixing.{mixed_bytes, share, word_box, word_box_undone};
ghost use Rattle.fields.specs.Theorems.{Inverse, Linear, Permutes};

use crate::mixing::mix;

// A word box, by its byte box and the tap byte of its mixing.
pub trait WordBox {
    ghost TAP: { ℕ };

    ghost byte_box: { ℕ → ℕ };

    const TAP: u8;

    // A byte through the byte box.
    fn box_byte(byte: u8) -> u8
        ensures { result ≡ byte_box byte };

    // The byte that the byte box takes to this one.
    fn unbox_byte(byte: u8) -> u8
        ensures { result ≡ undone byte_box byte };

    // The share of the least significant byte in a word through the box. The byte box permutes the bytes.
    fn share(byte: u8) -> u32
        ensures value { result ≡ share (doubled TAP) (byte_box byte) }
        ensures permutes { Permutes byte_box };

    ghost tap_is_byte: { TAP < 256 };

    // Each byte through the byte box, then mixing.
    final fn apply(word: u32) -> u32
        ensures value { result ≡ word_box TAP byte_box word }
        ensures undone { Inverse (word_box TAP byte_box) (word_box_undone TAP byte_box) }
    {
        // Kept by hand: as a map over the array it runs a tenth slower, and the ciphers call it at every word.
        let [w0, w1, w2, w3] = word.to_be_bytes();
        join_shares(
            Self::share(w0),
            Self::share(w1),
            Self::share(w2),
            Self::share(w3),
        )
    }

    // The word that the box takes to this one: mixing three times more gives the boxed bytes.
    final fn undo(word: u32) -> u32
        ensures { result ≡ word_box_undone TAP byte_box word }
    {
        let boxed = mix(mix(mix(word, Self::TAP), Self::TAP), Self::TAP);
        u32::from_be_bytes(boxed.to_be_bytes().map(|byte| Self::unbox_byte(byte)))
    }
}

// The shares of four bytes in a word box, each turned to its byte's place.
#[tactic(auto, using(crate::proofs::WordBoxes::shares_join))]
fn join_shares(a: u32, b: u32, c: u32, e: u32) -> u32
    ensures { (d : ℕ → ℕ) (p q s t : ℕ) → Linear d → p < 256 → q < 256 → s < 256 → t < 256 → a ≡ share d p → b ≡ share d q → c ≡ share d s → e ≡ share d t → result ≡ mixed_bytes d p q s t }
{
    e ^ c.rotate_left(8) ^ b.rotate_left(16) ^ a.rotate_left(24)
}
