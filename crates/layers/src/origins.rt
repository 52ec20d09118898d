// The key and the IV that a member of a pair names.
ghost use Rattle.std.specs.Prelude.{◌≡◌};
ghost use Rattle.layers.specs.Origins.{Names};

use crate::short::Short;
use generator::{Generator, LONGEST, OriginFault};

// A key and an IV.
#[derive(Drop)]
pub(crate) struct Origin {
    pub(crate) key: Short,
    pub(crate) iv: Short,
}

// The buffers are long enough, so a refusal says that there is none.
pub(crate) fn origin_of<G: Generator>(generator: &mut G) -> Result<Origin, OriginFault>
    ensures named { Names G.meaning (G.state generator.old) result }
    ensures same { G.state generator.new ≡ G.state generator.old }
{
    let mut key = [0; LONGEST];
    let mut iv = [0; LONGEST];
    let (key_len, iv_len) = generator.origin(&mut key, &mut iv)?;
    Ok(Origin {
        key: Short::new(key, key_len),
        iv: Short::new(iv, iv_len),
    })
}
