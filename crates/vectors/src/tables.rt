// The tables that are held, by the calls that give their entries.
use anyhow::Context;
use fields::{S1, S2, WordBox};

// S1(i) and S2(i) are the shares of the bytes in the word boxes, byte 0 the least significant.
#[derive(Clone, Copy)]
pub(crate) enum Table {
    Sr,
    Sq,
    MulAlpha,
    DivAlpha,
    S1(u8),
    S2(u8),
}

impl Table {
    pub(crate) fn held(self, place: u8) -> u32 {
        match self {
            Table::Sr => u32::from(S1::box_byte(place)),
            Table::Sq => u32::from(S2::box_byte(place)),
            Table::MulAlpha => fields::mul_alpha_entry(place),
            Table::DivAlpha => fields::div_alpha_entry(place),
            Table::S1(byte) => held_share::<S1>(byte, place),
            Table::S2(byte) => held_share::<S2>(byte, place),
        }
    }

    // How long an entry is where it is printed in full.
    pub(crate) fn digits(self) -> usize {
        match self {
            Table::Sr | Table::Sq => 2,
            _ => 10,
        }
    }
}

// The share of a byte at a place of a word, by the whole box: what is left where the shares of three bytes 0 are taken off.
fn held_share<B: WordBox>(byte: u8, place: u8) -> u32 {
    let turn = u32::from(byte % 4) * 8;
    let rest = B::apply(0) ^ B::share(0).rotate_left(turn);
    B::apply(u32::from(place) << turn) ^ rest
}

// A number as printed, in hexadecimal, with or without 0x before it.
pub(crate) fn number(printed: &str) -> anyhow::Result<u32> {
    let digits = printed.strip_prefix("0x").unwrap_or(printed);
    Ok(u32::from_str_radix(digits, 16)?)
}

pub(crate) fn byte(printed: Option<&str>) -> anyhow::Result<u8> {
    let text = printed.context("a line is too short")?;
    u8::try_from(number(text)?)
        .ok()
        .context("a number is no byte")
}
