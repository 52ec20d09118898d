// Hexadecimal text as bytes and words.
use crate::tables::number;
use anyhow::Context;

fn digit(byte: u8) -> anyhow::Result<u8> {
    let value = char::from(byte)
        .to_digit(16)
        .context("no hexadecimal digit")?;
    Ok(u8::try_from(value)?)
}

// A key as printed, at the front of a buffer: no key is longer. One that lacks its last byte is taken with its last printed byte once more; the
// program says so.
pub(crate) fn read_key<'a>(buffer: &'a mut [u8; 32], printed: &str) -> anyhow::Result<&'a [u8]> {
    let (pairs, odd) = printed.as_bytes().as_chunks::<2>();
    for (place, [high, low]) in pairs.iter().enumerate() {
        let byte = digit(*high)? << 4 | digit(*low)?;
        *buffer.get_mut(place).context("a key is too long")? = byte;
    }
    // half a byte has to be a digit too
    for half in odd {
        digit(*half)?;
    }
    let mut len = pairs.len();
    if len == 15 {
        buffer[15] = buffer[14];
        len = 16;
    }
    buffer.get(..len).context("a key is too long")
}

// The IV of four words, IV3 first.
pub(crate) fn iv(words: [&str; 4]) -> anyhow::Result<[u8; 16]> {
    let mut iv = [0; 16];
    for (part, word) in iv.chunks_exact_mut(4).zip(words) {
        part.copy_from_slice(&number(word)?.to_be_bytes());
    }
    Ok(iv)
}

pub(crate) fn word(printed: Option<&str>) -> anyhow::Result<&str> {
    printed.context("a line is too short")
}
