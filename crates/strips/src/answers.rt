// Orders put to a session. Kept with session and reply as parameters: as methods of a run each would say besides that the run's cursor stays.
ghost use Rattle.std.specs.Prelude.{◌≡◌, ◌+◌, ◌-◌, ◌≤◌, ◌∷◌, ◌++◌, length, take};
ghost use Rattle.strips.specs.Orders.{asked, opening, applying, placing, naming};
ghost use Rattle.strips.specs.Reading.{Small};
ghost use Rattle.strips.specs.Answered.{Answered, in_buffer, Sized};
ghost use Rattle.strips.specs.Replies.{reply_room};

use crate::bytes::put;
use crate::orders::Order;
use crate::strip::MOST_BYTES;
use generator::{Generator, LONGEST};
use session::{Refusal, Session};
use words::are_bytes;

// Opens with a copy of the key, which the session wipes.
fn answer_opening<G: Generator>(
    session: &mut Session<G>,
    key: &[u8],
    iv: &[u8],
    limit: u64,
    reply: &mut [u8; MOST_BYTES],
) -> Result<usize, Refusal>
    requires { length key.now ≤ MOST_BYTES }
    ensures answered { Answered G.Generator.meaning session.old (opening key.now iv.now limit) (in_buffer result reply.new) session.new }
    ensures sized { Sized 0 result }
{
    are_bytes(key);
    are_bytes(iv);
    let copy = &mut reply[0..key.len()];
    copy.copy_from_slice(key);
    session.open(copy, iv, limit)?;
    Ok(0)
}

// Joins a copy of the payload with the keystream.
fn answer_payload<G: Generator>(
    session: &mut Session<G>,
    payload: &[u8],
    reply: &mut [u8; MOST_BYTES],
) -> Result<usize, Refusal>
    requires { length payload.now ≤ MOST_BYTES }
    ensures answered { Answered G.Generator.meaning session.old (applying payload.now) (in_buffer result reply.new) session.new }
    ensures sized { Sized (length payload.now) result }
{
    let count = payload.len();
    let copy = &mut reply[0..count];
    copy.copy_from_slice(payload);
    session.apply_keystream(copy, 0, count)?;
    Ok(count)
}

fn answer_position<G: Generator>(
    session: &Session<G>,
    reply: &mut [u8; MOST_BYTES],
) -> Result<usize, Refusal>
    ensures answered { Answered G.Generator.meaning session.now placing (in_buffer result reply.new) session.now }
    ensures sized { Sized 8 result }
{
    let position = session.position()?;
    put(reply, 0, &position.to_be_bytes());
    Ok(8)
}

// A key and an IV behind their lengths, at the front of a reply; answers how many bytes that is.
fn put_names(reply: &mut [u8; MOST_BYTES], key: &[u8], iv: &[u8]) -> usize
    requires { (length key.now ≤ 255) × (length iv.now ≤ 255) }
    ensures size { result ≡ 2 + length key.now + length iv.now }
    ensures names { take result reply.new ≡ length key.now ∷ length iv.now ∷ (key.now ++ iv.now) }
{
    put(reply, 0, &[key.len() as u8, iv.len() as u8]);
    put(reply, 2, key);
    put(reply, 2 + key.len(), iv);
    2 + key.len() + iv.len()
}

fn answer_origin<G: Generator>(
    session: &mut Session<G>,
    reply: &mut [u8; MOST_BYTES],
) -> Result<usize, Refusal>
    ensures answered { Answered G.Generator.meaning session.old naming (in_buffer result reply.new) session.new }
    ensures sized { Sized 512 result }
{
    let mut key = [0; LONGEST];
    let mut iv = [0; LONGEST];
    let (key_len, iv_len) = session.origin(&mut key, &mut iv)?;
    Ok(put_names(reply, &key[0..key_len], &iv[0..iv_len]))
}

// Puts an order to the session, and answers how many bytes its reply has; they stand at the front of `reply`.
pub(crate) fn answer<G: Generator>(
    session: &mut Session<G>,
    order: Order<'_>,
    reply: &mut [u8; MOST_BYTES],
) -> Result<usize, Refusal>
    requires { Small MOST_BYTES (asked order) }
    ensures answered { Answered G.Generator.meaning session.old (asked order.entry) (in_buffer result reply.new) session.new }
    ensures sized { Sized (reply_room (asked order.entry) - 4) result }
{
    match order {
        Order::End => return Ok(0),
        Order::Open { key, iv, limit } => return answer_opening(session, key, iv, limit, reply),
        Order::Apply(payload) => return answer_payload(session, payload, reply),
        Order::Skip(n) => session.skip(n)?,
        Order::StepBack(n) => session.step_back(n)?,
        Order::Position => return answer_position(session, reply),
        Order::Origin => return answer_origin(session, reply),
        Order::Close => session.close()?,
    }
    Ok(0)
}
