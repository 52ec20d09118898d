// Bytes and words of 32 bits, most significant byte first.
#![tactic(auto)]

ghost use Rattle.std.specs.Prelude.{◌≡◌, ◌%◌};
ghost use Rattle.words.specs.Words.{Bytes, byte_of, word_at};

// Byte `place` mod 4 of a word; byte 0 is the most significant.
pub fn byte_at(word: u32, place: u64) -> u8
    ensures { result ≡ byte_of word (place % 4) }
{
    word.to_be_bytes()[(place % 4) as usize]
}

// Word `place` of some bytes, and 0 past their last whole word.
pub fn word_at(bytes: &[u8], place: usize) -> u32
    ensures { result ≡ word_at bytes.now place }
{
    let (words, _) = bytes.as_chunks::<4>();
    let Some(word) = words.get(place) else {
        return 0;
    };
    u32::from_be_bytes(*word)
}

// What a slice of bytes holds is bytes, as a proof sees once one is read.
pub fn are_bytes(bytes: &[u8])
    ensures { Bytes bytes.now }
{
    if bytes.is_empty() {
        return;
    }
    let _first = bytes[0];
}

#[cfg(test)]
mod tests {
    use super::*;

    #[test]
    fn bytes_of_a_word(rt: HostRuntime) {
        assert_eq!(rt; byte_at(0x01020304, 0), 1);
        assert_eq!(rt; byte_at(0x01020304, 3), 4);
        assert_eq!(rt; byte_at(0x01020304, 6), 3);
    }

    #[test]
    fn words_of_bytes(rt: HostRuntime) {
        assert_eq!(rt; word_at(&[0, 0, 0, 0, 1, 2, 3, 4, 5], 1), 0x01020304);
        assert_eq!(rt; word_at(&[0, 0, 0, 0, 1, 2, 3, 4, 5], 2), 0);
    }
}
