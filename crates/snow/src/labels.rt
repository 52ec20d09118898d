// Labels of the words of a key and an IV.
ghost use Rattle.std.specs.Prelude.{◌≡◌, ◌/◌, ◌%◌, ◌<◌, length};
ghost use Rattle.snow.specs.Labels.{label_number, Part, Labelled};

// Why a label was not answered.
#[derive(Clone, Copy, PartialEq, Eq, Debug)]
pub enum LabelFault {
    KeyLength,
    IvLength,
    NoSuchNumber,
}

impl LabelFault {
    // The number of this refusal.
    pub fn number(self) -> u8
        ensures { result ≡ label_number self }
    {
        match self {
            LabelFault::KeyLength => 3,
            LabelFault::IvLength => 4,
            LabelFault::NoSuchNumber => 13,
        }
    }
}

// The four bytes of word `i`: the highest word comes first.
fn part(bytes: &[u8], i: usize) -> &[u8]
    requires { (length bytes.now % 4 ≡ 0) × (i < length bytes.now / 4) }
    ensures { Part bytes.now i result.now }
{
    let at = 4 * (bytes.len() / 4 - 1 - i);
    &bytes[at..at + 4]
}

// A label is the number under which a word of a key or an IV is asked for: k0 onward, then IV0 to IV3. The answer is the word's four bytes.
pub fn label<'a>(key: &'a [u8], iv: &'a [u8], number: usize) -> Result<&'a [u8], LabelFault>
    ensures { Labelled key.now iv.now number result }
{
    if key.len() != 16 && key.len() != 32 {
        return Err(LabelFault::KeyLength);
    }
    if iv.len() != 16 {
        return Err(LabelFault::IvLength);
    }
    let words = key.len() / 4;
    if number < words {
        Ok(part(key, number))
    } else if number < words + 4 {
        Ok(part(iv, number - words))
    } else {
        Err(LabelFault::NoSuchNumber)
    }
}
