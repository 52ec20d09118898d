// Lists of calls made on one session.
ghost use Rattle.std.specs.Prelude.{◌≡◌, MatchResult};
ghost use Rattle.history.specs.Laws.{SessionLaws};
ghost use Rattle.history.specs.Replays.{Does, Replayed, Stopped};

use crate::requests::{Answer, Request};
use generator::{Generator, LONGEST};
use session::Session;
use std::alloc::{AllocError, Global};
use words::are_bytes;

// One request. Where memory is short nothing is done.
fn perform<G: Generator>(
    heap: Global,
    session: &mut Session<G>,
    request: &Request<'_>,
    message: &mut [u8],
) -> Result<Answer, AllocError>
    ensures { MatchResult result (λ a. Does G.Generator.meaning session.old message.old request.now a session.new message.new) (λ _. (session.new ≡ session.old) × (message.new ≡ message.old)) }
{
    match request {
        Request::Open { key, iv, limit } => {
            are_bytes(key);
            are_bytes(iv);
            let mut copy = key.to_vec(heap)?;
            Ok(Answer::Done(session.open(&mut copy, iv, *limit)))
        }
        Request::ApplyToMessage { start, count } => Ok(Answer::Done(session.apply_keystream(
            message, *start, *count,
        ))),
        Request::ApplyElsewhere {
            bytes,
            start,
            count,
        } => {
            let mut copy = bytes.to_vec(heap)?;
            let done = session.apply_keystream(&mut copy, *start, *count);
            Ok(Answer::Through(done, copy))
        }
        Request::Skip(n) => Ok(Answer::Done(session.skip(*n))),
        Request::StepBack(n) => Ok(Answer::Done(session.step_back(*n))),
        Request::Position => Ok(Answer::Place(session.position())),
        Request::Origin => {
            let mut key = vec![in heap; 0; LONGEST]?;
            let mut iv = vec![in heap; 0; LONGEST]?;
            let named = session.origin(&mut key, &mut iv);
            Ok(Answer::Names(named, key, iv))
        }
        Request::Close => Ok(Answer::Done(session.close())),
    }
}

// Makes the requests of a new session over the generator, in order, and answers the session with what each call answered. Where memory runs
// out, the requests up to there are made.
pub fn replay<G: Generator + Drop>(
    heap: Global,
    generator: G,
    requests: &[Request<'_>],
    message: &mut [u8],
) -> Result<(Session<G>, Vec<Answer>), AllocError>
    ensures replayed { MatchResult result (λ p. Replayed G.Generator.meaning message.old requests.now p.1.items p.0 message.new) (λ _. Stopped G.Generator.meaning message.old requests.now message.new) }
    ensures laws { SessionLaws G.Generator.meaning }
{
    let mut session = Session::new(generator);
    let mut answers = Vec::new(heap);
    for request in requests {
        answers.push(perform(heap, &mut session, request, message)?)?;
    }
    Ok((session, answers))
}
