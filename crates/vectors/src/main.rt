// Compares what the standards print with what is held. The files under data/ keep each entry as it is printed.
#![tactic(auto)]

use anyhow::Context;
use std::fs;

mod ciphers;
mod hex;
mod tables;
mod tally;

use tables::Table;
use tally::Tally;

fn compare_table(rt: &HostRuntime, title: &str, file: &str, table: Table) -> anyhow::Result<()> {
    let text = fs::read_to_string(rt, file)?;
    let mut tally = Tally::default();
    let mut full = Tally::default();
    for (place, printed) in text.split_whitespace().enumerate() {
        let place = u8::try_from(place)
            .ok()
            .context("a table has more than 256 entries")?;
        let held = table.held(place);
        let agrees = tables::number(printed)? == held;
        if !agrees {
            println!(rt; "  {title}[{place:02X}]: printed {printed}, held {held:08X}")?;
        }
        tally.count(agrees);
        full.count(!agrees || printed.len() >= table.digits());
    }
    let Tally {
        compared,
        differing,
    } = tally;
    let short = full.differing;
    println!(rt;
        "{title}: {compared} entries compared, {differing} differ, {short} agree but lack a leading zero"
    )?;
    Ok(())
}

// The counts of examples stop here, as they did in sixteen bits: what is printed stays the same.
const MOST_EXAMPLES: u32 = 0xFFFF;

fn compare_doublings(rt: &HostRuntime) -> anyhow::Result<()> {
    let text = fs::read_to_string(rt, "etsi_mulx.txt")?;
    let mut tally = Tally::default();
    for line in text.lines() {
        let mut words = line.split_whitespace();
        let byte = tables::byte(words.next())?;
        let tap = tables::byte(words.next())?;
        let printed = tables::byte(words.next())?;
        let held = fields::double(byte, tap);
        if printed != held {
            println!(rt; "  MULx({byte:02X}, {tap:02X}): printed {printed:02X}, held {held:02X}")?;
        }
        tally.count(printed == held);
    }
    let examples = tally.compared.min(MOST_EXAMPLES);
    let differing = tally.differing.min(MOST_EXAMPLES);
    println!(rt; "ETSI/SAGE 3.1.1 MULx: {examples} examples compared, {differing} differ")?;
    Ok(())
}

// Each printed table: its title, its file and the table that is held.
const TABLES: [(&str, &str, Table); 15] = [
    ("ETSI/SAGE table 1 SR", "etsi_sr.txt", Table::Sr),
    ("ETSI/SAGE table 2 SQ", "etsi_sq.txt", Table::Sq),
    ("ETSI/SAGE table 3 S1_T0", "etsi_s1_t0.txt", Table::S1(0)),
    ("ETSI/SAGE table 4 S1_T1", "etsi_s1_t1.txt", Table::S1(1)),
    ("ETSI/SAGE table 5 S1_T2", "etsi_s1_t2.txt", Table::S1(2)),
    ("ETSI/SAGE table 6 S1_T3", "etsi_s1_t3.txt", Table::S1(3)),
    ("ETSI/SAGE table 7 S2_T0", "etsi_s2_t0.txt", Table::S2(0)),
    ("ETSI/SAGE table 8 S2_T1", "etsi_s2_t1.txt", Table::S2(1)),
    ("ETSI/SAGE table 9 S2_T2", "etsi_s2_t2.txt", Table::S2(2)),
    ("ETSI/SAGE table 10 S2_T3", "etsi_s2_t3.txt", Table::S2(3)),
    (
        "ETSI/SAGE table 11 MULalpha",
        "etsi_mul_alpha.txt",
        Table::MulAlpha,
    ),
    (
        "ETSI/SAGE table 12 DIValpha",
        "etsi_div_alpha.txt",
        Table::DivAlpha,
    ),
    ("ISO 7.1.7 SUB", "iso_sub.txt", Table::Sr),
    ("ISO 7.2.5 alpha_mul", "iso_alpha_mul.txt", Table::MulAlpha),
    (
        "ISO 7.2.6 alpha_inv_mul",
        "iso_alpha_inv_mul.txt",
        Table::DivAlpha,
    ),
];

fn compare_all(rt: &HostRuntime) -> anyhow::Result<()> {
    compare_doublings(rt)?;
    for (title, file, table) in TABLES {
        compare_table(rt, title, file, table)?;
    }
    ciphers::compare(rt)
}

fn main(rt: HostRuntime) -> anyhow::Result<()> {
    compare_all(&rt)
}
