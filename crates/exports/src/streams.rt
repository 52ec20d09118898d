// Keystream words from given states.
ghost use Rattle.exports.specs.Answers.{Stream, StreamedFrom, StreamedBy, words_number};

use crate::faults::CallFault;
use crate::filled::Filled;
use generator::Generator;
use layers::{EveryOther, Pair};
use snow::{Register, Snow2, Snow3g};

// A word for each place, and a step after each.
fn put_stream<G: Generator>(generator: &mut G, words: &mut [u32])
    ensures { Stream G.meaning (G.state generator.old) words.old words.new }
{
    for word in words.iter_mut() {
        *word = generator.word();
        generator.forward();
    }
}

// The keystream from a state on, after some steps back.
fn stream<G: Filled>(state: &[u32], back: u64, words: &mut [u32]) -> Result<(), CallFault>
    ensures { StreamedFrom G.Generator.meaning state.now back words.old (words_number result) words.new }
{
    let mut generator = G::filled(state)?;
    generator.backward_by(back);
    put_stream(&mut generator, words);
    Ok(())
}

// The keystream of a generator from a given state on, after some steps back.
#[unsafe(no_mangle)]
pub extern "C" fn jorumdell_words(
    generator: u32,
    state: &[u32],
    back: u64,
    words: &mut [u32],
) -> u64
    ensures { StreamedBy generator state.now back words.old result words.new }
{
    // Kept as numbers in each call: C hands them in, and each arm is an instance at another type.
    let streamed = match generator {
        0 => stream::<Snow2>(state, back, words),
        1 => stream::<Snow3g>(state, back, words),
        2 => stream::<Register>(state, back, words),
        3 => stream::<Pair<Snow2, Snow3g>>(state, back, words),
        4 => stream::<EveryOther<Snow2>>(state, back, words),
        _ => Err(CallFault::UnknownGenerator),
    };
    streamed.map_or_else(CallFault::number, |()| 0)
}
