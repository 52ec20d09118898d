// Traces from given states.
ghost use Rattle.exports.specs.Answers.{answer_names, TracedFrom, TracedBy};

use crate::answers::Names;
use crate::faults::CallFault;
use crate::filled::Filled;
use layers::{EveryOther, Pair};
use session::trace;
use snow::{Register, Snow2, Snow3g};

// Traces from a state.
fn trace_from<G: Filled>(
    state: &[u32],
    n: u64,
    key: &mut [u8],
    iv: &mut [u8],
) -> Result<(usize, usize), CallFault>
    ensures { TracedFrom G.Generator.meaning state.now n key.old iv.old (answer_names result) key.new iv.new }
{
    let mut generator = G::filled(state)?;
    Ok(trace(&mut generator, n, key, iv)?)
}

// The key and the IV that reach a given state of a generator in n words.
#[unsafe(no_mangle)]
pub extern "C" fn jorumdell_trace(
    generator: u32,
    state: &[u32],
    n: u64,
    key: &mut [u8],
    iv: &mut [u8],
    names: &mut Names,
)
    ensures { TracedBy generator state.now n key.old iv.old names.new key.new iv.new }
{
    // Kept as numbers in each call: C hands them in, and each arm is an instance at another type.
    let traced = match generator {
        0 => trace_from::<Snow2>(state, n, key, iv),
        1 => trace_from::<Snow3g>(state, n, key, iv),
        2 => trace_from::<Register>(state, n, key, iv),
        3 => trace_from::<Pair<Snow2, Snow3g>>(state, n, key, iv),
        4 => trace_from::<EveryOther<Snow2>>(state, n, key, iv),
        _ => Err(CallFault::UnknownGenerator),
    };
    *names = Names::from(traced);
}
