// SNOW 2.0 compared with the printed keystreams and internal states.
use crate::hex;
use crate::tables::number;
use crate::tally::Tally;
use anyhow::anyhow;
use generator::{Generator, LONGEST};
use snow::Snow2;
use std::fs;

fn loaded(key: &[u8], iv: &[u8]) -> anyhow::Result<Snow2> {
    let mut cipher = Snow2::new();
    cipher
        .load(key, iv)
        .map_err(|_| anyhow!("a key has no load"))?;
    Ok(cipher)
}

// The key and the IV of a state, and the way back to it, are those of its load.
fn names(cipher: &mut Snow2, words: u32, key: &[u8], iv: &[u8]) -> bool {
    cipher.backward_by(u64::from(words));
    let mut found = [0; LONGEST];
    let mut found_iv = [0; LONGEST];
    cipher.origin(&mut found, &mut found_iv).is_ok_and(|(len, iv_len)| {
        found.get(..len) == Some(key) && found_iv.get(..iv_len) == Some(iv)
    })
}

fn compare_line(rt: &HostRuntime, title: &str, line: &str) -> anyhow::Result<Tally> {
    let mut words = line.split_whitespace();
    let text = hex::word(words.next())?;
    let mut buffer = [0; 32];
    let key = hex::read_key(&mut buffer, text)?;
    let digits = text.len();
    if digits % 32 != 0 {
        println!(rt;
            "  {title}: a key is printed with {digits} digits, compared under its last byte once more"
        )?;
    }
    let iv = hex::iv([
        hex::word(words.next())?,
        hex::word(words.next())?,
        hex::word(words.next())?,
        hex::word(words.next())?,
    ])?;
    let mut cipher = loaded(key, &iv)?;
    let mut tally = Tally::default();
    for printed in words {
        let held = cipher.word();
        let agrees = number(printed)? == held;
        if !agrees {
            println!(rt; "  {title}: printed {printed}, held {held:08X}")?;
        }
        tally.count(agrees);
        cipher.forward();
    }
    if !names(&mut cipher, tally.compared, key, &iv) {
        return Err(anyhow!("an origin is not the key and the IV that were loaded"));
    }
    Ok(tally)
}

fn compare_keystreams(rt: &HostRuntime, title: &str, file: &str) -> anyhow::Result<()> {
    let text = fs::read_to_string(rt, file)?;
    let mut tally = Tally::default();
    for line in text.lines() {
        tally += compare_line(rt, title, line)?;
    }
    let vectors = text.lines().count();
    let Tally {
        compared,
        differing,
    } = tally;
    println!(rt;
        "{title}: {vectors} keystreams, {compared} words compared forward, {differing} differ, stepped back to their origins"
    )?;
    Ok(())
}

// A line has the time, a15 down to a0, b1 and b2. A word that is not printed stands as a dash.
fn compare_state(rt: &HostRuntime, line: &str, held: [u32; 18]) -> anyhow::Result<Tally> {
    let mut words = line.split_whitespace();
    let time = hex::word(words.next())?;
    let mut tally = Tally::default();
    let places = (0..16usize).rev().chain(16..18);
    for (name, printed) in places.zip(words).filter(|(_, printed)| printed.len() > 1) {
        let value = held.get(name).copied().unwrap_or(0);
        let agrees = number(printed)? == value;
        if !agrees {
            println!(rt;
                "  ISO A.3.1.2 time {time}, word {name}: printed {printed}, held {value:08x}"
            )?;
        }
        tally.count(agrees);
    }
    Ok(tally)
}

// The register before the IV is joined, then the states from the first step on.
fn compare_states(rt: &HostRuntime) -> anyhow::Result<()> {
    let mut key = [0u8; 16];
    key[0] = 0x80;
    let iv = hex::iv(["4", "3", "2", "1"])?;
    let mut bare = loaded(&key, &[0u8; 16])?;
    let mut cipher = loaded(&key, &iv)?;
    bare.backward();
    cipher.backward();
    for _ in 0..32u32 {
        bare.unfeed();
        cipher.unfeed();
    }
    let text = fs::read_to_string(rt, "iso_a3_states.txt")?;
    let mut tally = Tally::default();
    for (state, line) in text.lines().enumerate() {
        let held = if state == 0 {
            bare.words()
        } else {
            cipher.words()
        };
        tally += compare_state(rt, line, held)?;
        match state {
            0 => {}
            1..=32 => cipher.feed(),
            _ => cipher.forward(),
        }
    }
    let states = text.lines().count();
    let Tally {
        compared,
        differing,
    } = tally;
    println!(rt; "ISO A.3.1.2: {states} states, {compared} words compared, {differing} differ")?;
    Ok(())
}

pub(crate) fn compare(rt: &HostRuntime) -> anyhow::Result<()> {
    compare_keystreams(rt, "ISO A.3", "iso_a3_keystreams.txt")?;
    compare_keystreams(rt, "SNOW 2.0 paper", "snow2_paper_keystreams.txt")?;
    compare_states(rt)
}
