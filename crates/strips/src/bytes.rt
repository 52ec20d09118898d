// Bytes of a strip and of replies. Kept with a place beside the buffer: a reply's parts and the replies are both written so.
ghost use Rattle.std.specs.Prelude.{◌≡◌, ◌+◌, ◌≤◌, length};
ghost use Rattle.words.specs.Words.{bytes_of};
ghost use Rattle.strips.specs.Reading.{all_zero};
ghost use Rattle.strips.specs.Replies.{put_at};

// Whether every byte is zero.
pub(crate) fn is_zero(bytes: &[u8]) -> bool
    ensures { result ≡ all_zero bytes.now }
{
    bytes.iter().all(|byte| *byte == 0)
}

// Some bytes, from place `at` of a buffer on.
pub(crate) fn put(buffer: &mut [u8], at: usize, bytes: &[u8])
    requires { at + length bytes.now ≤ length buffer.old }
    ensures { buffer.new ≡ put_at at bytes.now buffer.old }
{
    buffer[at..at + bytes.len()].copy_from_slice(bytes);
}

// The four bytes of a word, from place `at` of a buffer on.
pub(crate) fn put_word(buffer: &mut [u8], at: usize, word: u32)
    requires { at + 4 ≤ length buffer.old }
    ensures { buffer.new ≡ put_at at (bytes_of word) buffer.old }
{
    put(buffer, at, &word.to_be_bytes());
}
