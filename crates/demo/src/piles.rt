// Layers over generators, and piles of layers.
use crate::show;
use layers::{EveryOther, Pair};
use snow::{Register, Snow2, Snow3g};

pub(crate) fn demonstrate(rt: &HostRuntime) -> anyhow::Result<()> {
    println!(rt; "SNOW 2.0, 16 bytes of key, IV 4 3 2 1")?;
    let mut key = [0u8; 16];
    key[0] = 0x80;
    let iv = [0u8, 0, 0, 4, 0, 0, 0, 3, 0, 0, 0, 2, 0, 0, 0, 1];
    show::keystream(rt, &mut Snow2::new(), &key, &iv, 4)?;
    println!(rt; "Every other word of SNOW 2.0 under the same key")?;
    show::keystream(rt, &mut EveryOther::new(Snow2::new()), &key, &iv, 2)?;
    println!(rt; "A pair of SNOW 2.0 and SNOW 3G")?;
    let mut both = [0xAAu8; 49];
    both[0] = 16;
    let mut ivs = [0u8; 33];
    ivs[0] = 16;
    show::keystream(
        rt,
        &mut Pair::new(Snow2::new(), Snow3g::new()),
        &both,
        &ivs,
        2,
    )?;
    println!(rt; "A pair of a register and that pair, with a short key for the pair")?;
    let inner = Pair::new(Snow2::new(), Snow3g::new());
    let mut short = [1u8; 70];
    short[0] = 64;
    show::keystream(
        rt,
        &mut Pair::new(Register::new(), inner),
        &short,
        &[0u8; 34],
        1,
    )
}
