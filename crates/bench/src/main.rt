// Times 16 MiB of keystream for each cipher. Figures go to standard error, a checksum of the keystream to standard output.
#![tactic(auto)]

use anyhow::anyhow;
use generator::Generator;
use snow::{Snow2, Snow3g};
use std::time::Instant;

const WORDS: u32 = 4194304;

// The words of a keystream, each joined to those before it turned by a bit.
fn checksum<G: Generator>(generator: &mut G, words: u32) -> u32 {
    let mut sum = 0u32;
    for _ in 0..words {
        sum = sum.rotate_left(1) ^ generator.word();
        generator.forward();
    }
    sum
}

fn measure<G: Generator>(rt: &HostRuntime, name: &str, generator: &mut G) -> anyhow::Result<()> {
    let key = [0xAAu8; 32];
    let iv = [0u8; 16];
    if generator.load(&key, &iv).is_err() {
        return Err(anyhow!("the key has no load"));
    }
    let start = Instant::now(rt)?;
    let sum = checksum(generator, WORDS);
    let took = start.elapsed(rt)?;
    println!(rt; "{name}: {WORDS} words, checksum {sum:08X}")?;
    let micros = took.as_micros();
    eprintln!(rt; "{name}: 16 MiB in {micros} microseconds")?;
    Ok(())
}

fn measure_all(rt: &HostRuntime) -> anyhow::Result<()> {
    measure(rt, "SNOW 2.0", &mut Snow2::new())?;
    measure(rt, "SNOW 3G", &mut Snow3g::new())
}

fn main(rt: HostRuntime) -> anyhow::Result<()> {
    measure_all(&rt)
}
