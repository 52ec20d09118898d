// Standard input holds a sheet, a word that names a generator and a strip; standard output gets the replies.
#![tactic(auto)]

use std::io;
use std::io::{Read, Write};

#[cfg(test)]
mod tests;

// One byte more than the longest sheet, so that a longer one is seen and refused.
const MOST_READ: u64 = 64_001;

// The reply bytes that a sheet is answered in.
const ROOM: usize = 64_000;

fn main(rt: HostRuntime) -> io::Result<()> {
    let mut input = Vec::new(rt.alloc());
    rt.stdin().take(MOST_READ).read_to_end(&mut input)?;
    let mut replies = vec![in rt.alloc(); 0; ROOM]?;
    let report = strips::answer_sheet(&input, &mut replies);
    replies.truncate(report.bytes);
    rt.stdout().write_all(&replies)
}
