// Printing of bytes, words, origins and refusals.
use anyhow::Context;
use generator::{Fault, Generator, LONGEST};
use session::Refusal;
use std::fmt;

// A refusal as it is printed: its number, and the member of a combined generator where that is told.
#[derive(Clone, Copy)]
pub(crate) struct Refused {
    number: u8,
    member: Option<u8>,
}

impl Refused {
    pub(crate) fn with(number: u8) -> Refused {
        Refused {
            number,
            member: None,
        }
    }
}

impl From<Refusal> for Refused {
    fn from(refusal: Refusal) -> Refused {
        Refused {
            number: refusal.number(),
            member: Some(refusal.member()),
        }
    }
}

impl From<Fault> for Refused {
    fn from(fault: Fault) -> Refused {
        Refused::from(Refusal::from(fault))
    }
}

impl fmt::Display for Refused {
    fn fmt<W: fmt::Write>(&self, f: &mut fmt::Formatter<W>) -> fmt::Result {
        write!(f, "refused with {}", self.number)?;
        match self.member {
            Some(member) => write!(f, ", member {member}"),
            None => Ok(()),
        }
    }
}

// Whether a call was done.
pub(crate) fn done(
    rt: &HostRuntime,
    call: &str,
    answer: Result<(), Refused>,
) -> anyhow::Result<()> {
    match answer {
        Ok(()) => println!(rt; "  {call}: done")?,
        Err(refused) => println!(rt; "  {call}: {refused}")?,
    }
    Ok(())
}

pub(crate) fn bytes(rt: &HostRuntime, label: &str, bytes: &[u8]) -> anyhow::Result<()> {
    print!(rt; "  {label}:")?;
    for byte in bytes {
        print!(rt; " {byte:02X}")?;
    }
    println!(rt; "")?;
    Ok(())
}

// The front of a buffer, as much of it as there is.
pub(crate) fn front(
    rt: &HostRuntime,
    label: &str,
    buffer: &[u8],
    count: usize,
) -> anyhow::Result<()> {
    let part = buffer.get(..count).context("a length passes its buffer")?;
    bytes(rt, label, part)
}

// The key and the IV behind the present state.
pub(crate) fn origin<G: Generator>(rt: &HostRuntime, generator: &mut G) -> anyhow::Result<()> {
    let mut key = [0; LONGEST];
    let mut iv = [0; LONGEST];
    match generator.origin(&mut key, &mut iv) {
        Ok((key_len, iv_len)) => {
            front(rt, "origin: key", &key, key_len)?;
            front(rt, "origin: IV", &iv, iv_len)
        }
        Err(fault) => done(rt, "origin", Err(Refused::with(fault.number()))),
    }
}

// A load, the first words, and the way back to the start.
pub(crate) fn keystream<G: Generator>(
    rt: &HostRuntime,
    generator: &mut G,
    key: &[u8],
    iv: &[u8],
    words: u32,
) -> anyhow::Result<()> {
    if let Err(fault) = generator.load(key, iv) {
        return done(rt, "load", Err(Refused::from(fault)));
    }
    for n in 0..words {
        let word = generator.word();
        println!(rt; "  word {n}: {word:08X}")?;
        generator.forward();
    }
    println!(rt; "  stepped back {words} words")?;
    generator.backward_by(u64::from(words));
    origin(rt, generator)
}
