// A generator taken back and forward again.
ghost use Rattle.std.specs.Prelude.{◌≡◌};
ghost use Rattle.generator.specs.Calls.{Named};

use generator::{Generator, OriginFault};

// The key and the IV that reach the present state in so many words.
pub(crate) fn origin_before<G: Generator>(
    generator: &mut G,
    words: u64,
    key: &mut [u8],
    iv: &mut [u8],
) -> Result<(usize, usize), OriginFault>
    ensures named { Named G.Generator.meaning words (G.Generator.state generator.old) key.old iv.old result key.new iv.new }
    ensures same { G.Generator.state generator.new ≡ G.Generator.state generator.old }
{
    generator.backward_by(words);
    let answer = generator.origin(key, iv);
    generator.forward_by(words);
    answer
}
