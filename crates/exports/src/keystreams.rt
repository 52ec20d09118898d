// Keystream through a session.
ghost use Rattle.std.specs.Prelude.{◌≡◌, length, replicate};
ghost use Rattle.exports.specs.Answers.{Sent, SentBy};

use crate::answers::Outcome;
use crate::faults::CallFault;
use generator::Generator;
use layers::{EveryOther, Pair};
use session::{Refusal, Session};
use snow::{Register, Snow2, Snow3g};

// What is asked of a session: its opening, the bytes that it skips, and a window of a buffer.
#[derive(Clone, Copy)]
struct Task<'a> {
    iv: &'a [u8],
    limit: u64,
    skipped: u64,
    start: usize,
    count: usize,
}

// Opens a session, skips, and applies keystream.
fn send<G: Generator + Drop>(
    generator: G,
    key: &mut [u8],
    task: Task<'_>,
    buffer: &mut [u8],
) -> Result<(), Refusal>
    ensures sent { Sent G.meaning key.old task.entry.iv.now task.entry.limit task.entry.skipped task.entry.start task.entry.count buffer.old result buffer.new }
    ensures wiped { key.new ≡ replicate (length key.old) 0 }
{
    let mut session = Session::new(generator);
    session.open(key, task.iv, task.limit)?;
    session.skip(task.skipped)?;
    session.apply_keystream(buffer, task.start, task.count)
}

// Opens a new session over a generator, skips some bytes of keystream, and applies keystream to a window of a buffer.
#[unsafe(no_mangle)]
pub extern "C" fn jorumdell_keystream(
    generator: u32,
    key: &mut [u8],
    iv: &[u8],
    limit: u64,
    skipped: u64,
    buffer: &mut [u8],
    start: usize,
    count: usize,
    outcome: &mut Outcome,
)
    ensures sent { SentBy generator key.old iv.now limit skipped start count buffer.old outcome.new buffer.new }
    ensures wiped { key.new ≡ replicate (length key.old) 0 }
{
    let task = Task {
        iv,
        limit,
        skipped,
        start,
        count,
    };
    // Kept as numbers in each call: C hands them in, and each arm is an instance at another type.
    let answer = match generator {
        0 => send(Snow2::new(), key, task, buffer),
        1 => send(Snow3g::new(), key, task, buffer),
        2 => send(Register::new(), key, task, buffer),
        3 => send(Pair::new(Snow2::new(), Snow3g::new()), key, task, buffer),
        4 => send(EveryOther::new(Snow2::new()), key, task, buffer),
        _ => {
            key.fill(0);
            *outcome = Outcome {
                number: CallFault::UnknownGenerator.number(),
                member: 0,
            };
            return;
        }
    };
    *outcome = Outcome::from(answer);
}
