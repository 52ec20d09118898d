// Lists of calls on one session, and a trace.
use crate::show;
use crate::show::Refused;
use anyhow::anyhow;
use generator::{Generator, LONGEST};
use history::{Answer, Request, replay};
use session::{Refusal, trace};
use snow::Snow2;

const KEY: [u8; 16] = [0xAA; 16];

const IV: [u8; 16] = [0, 0, 0, 4, 0, 0, 0, 3, 0, 0, 0, 2, 0, 0, 0, 1];

fn done(rt: &HostRuntime, call: &str, answer: &Result<(), Refusal>) -> anyhow::Result<()> {
    show::done(rt, call, (*answer).map_err(Refused::from))
}

fn report(rt: &HostRuntime, call: &str, answer: &Answer) -> anyhow::Result<()> {
    match answer {
        Answer::Done(result) => done(rt, call, result),
        Answer::Through(result, buffer) => {
            done(rt, call, result)?;
            show::bytes(rt, "  buffer", buffer.as_slice())
        }
        Answer::Place(Ok(position)) => {
            println!(rt; "  {call}: {position}")?;
            Ok(())
        }
        Answer::Place(Err(refusal)) | Answer::Names(Err(refusal), _, _) => {
            done(rt, call, &Err(*refusal))
        }
        Answer::Names(Ok((key_len, iv_len)), key, iv) => {
            println!(rt; "  {call}: {key_len} and {iv_len} bytes")?;
            show::front(rt, "  key", key.as_slice(), *key_len)?;
            show::front(rt, "  IV", iv.as_slice(), *iv_len)
        }
    }
}

const OPENING: Request<'static> = Request::Open {
    key: &KEY,
    iv: &IV,
    limit: 4,
};

// The calls, by the names under which they are printed.
const CALLS: [(&str, Request<'static>); 15] = [
    ("open", OPENING),
    ("apply 0..5", Request::ApplyToMessage { start: 0, count: 5 }),
    (
        "apply 5..12",
        Request::ApplyToMessage { start: 5, count: 7 },
    ),
    ("skip past the limit", Request::Skip(5)),
    ("position", Request::Position),
    ("step back 7", Request::StepBack(7)),
    (
        "apply 5..12 again",
        Request::ApplyToMessage { start: 5, count: 7 },
    ),
    (
        "apply 4 bytes elsewhere",
        Request::ApplyElsewhere {
            bytes: b"four",
            start: 0,
            count: 4,
        },
    ),
    ("step back 11", Request::StepBack(11)),
    (
        "apply 5..12 once more",
        Request::ApplyToMessage { start: 5, count: 7 },
    ),
    ("origin", Request::Origin),
    ("close", Request::Close),
    ("position", Request::Position),
    ("open again", OPENING),
    (
        "apply 0..12",
        Request::ApplyToMessage {
            start: 0,
            count: 12,
        },
    ),
];

fn replay_calls(rt: &HostRuntime) -> anyhow::Result<()> {
    let mut message = *b"attack at dawn!!";
    let requests = CALLS.map(|(_, request)| request);
    show::bytes(rt, "message before", &message)?;
    let (session, answers) = replay(rt.alloc(), Snow2::new(), &requests, &mut message)?;
    for ((name, _), answer) in CALLS.iter().zip(answers.iter()) {
        report(rt, *name, answer)?;
    }
    show::bytes(rt, "message after", &message)
}

fn trace_once(rt: &HostRuntime, generator: &mut Snow2, words: u64) -> anyhow::Result<()> {
    let mut key = [0; LONGEST];
    let mut iv = [0; LONGEST];
    match trace(generator, words, &mut key, &mut iv) {
        Ok((key_len, iv_len)) => {
            println!(rt; "  {words} words back: found")?;
            show::front(rt, "  key", &key, key_len)?;
            show::front(rt, "  IV", &iv, iv_len)
        }
        Err(fault) => {
            let refused = Refused::with(fault.number());
            println!(rt; "  {words} words back: {refused}")?;
            Ok(())
        }
    }
}

fn trace_generator(rt: &HostRuntime) -> anyhow::Result<()> {
    let mut generator = Snow2::new();
    if generator.load(&KEY, &IV).is_err() {
        return Err(anyhow!("the key has no load"));
    }
    generator.forward_by(1000);
    trace_once(rt, &mut generator, 1000)?;
    trace_once(rt, &mut generator, 999)?;
    trace_once(rt, &mut generator, 1048577)
}

pub(crate) fn demonstrate(rt: &HostRuntime) -> anyhow::Result<()> {
    println!(rt; "A session over SNOW 2.0, with a limit of four words")?;
    replay_calls(rt)?;
    println!(rt; "A trace of SNOW 2.0 after 1000 words")?;
    trace_generator(rt)
}
