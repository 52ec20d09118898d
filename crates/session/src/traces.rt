// The key and the IV behind a state.
ghost use Rattle.std.specs.Prelude.{◌≡◌};
ghost use Rattle.session.specs.Calls.{Traced};

use crate::refusals::TraceFault;
use crate::steps::origin_before;
use generator::{Generator, have_room};

// The most words that a trace goes back.
const MOST_WORDS: u64 = 1 << 20;

// The key and the IV that reach the generator's state in n words, at the front of the two buffers, and their lengths. The generator ends as
// it was.
pub fn trace<G: Generator>(
    generator: &mut G,
    n: u64,
    key: &mut [u8],
    iv: &mut [u8],
) -> Result<(usize, usize), TraceFault>
    ensures traced { Traced G.Generator.meaning n (G.Generator.state generator.old) key.old iv.old result key.new iv.new }
    ensures same { G.Generator.state generator.new ≡ G.Generator.state generator.old }
{
    if !have_room(key, iv) {
        return Err(TraceFault::ShortBuffer);
    }
    if n > MOST_WORDS {
        return Err(TraceFault::TooFar);
    }
    Ok(origin_before(generator, n, key, iv)?)
}
