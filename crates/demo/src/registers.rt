// The bare register: a load, its words, the way back, and its origin.
use crate::show;
use crate::show::Refused;
use snow::Register;

pub(crate) fn demonstrate(rt: &HostRuntime) -> anyhow::Result<()> {
    println!(rt; "Register, key zero but for its last word 01020304")?;
    let mut key = [0u8; 64];
    key[60] = 1;
    key[61] = 2;
    key[62] = 3;
    key[63] = 4;
    let mut register = Register::new();
    show::keystream(rt, &mut register, &key, &[], 17)?;
    println!(rt; "Register, filled with fifteen words")?;
    let filled = register.fill(&[7u32; 15]);
    show::done(
        rt,
        "fill",
        filled.map_err(|fault| Refused::with(fault.number())),
    )
}
