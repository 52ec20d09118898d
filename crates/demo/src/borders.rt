// Calls at the border of what is accepted.
use crate::show;
use crate::show::Refused;
use generator::LONGEST;
use session::{Refusal, Session};
use snow::{Snow2, label};

// Whether a call was done, by the number alone where it was refused.
fn tell(rt: &HostRuntime, call: &str, answer: Result<(), Refusal>) -> anyhow::Result<()> {
    show::done(
        rt,
        call,
        answer.map_err(|refusal| Refused::with(refusal.number())),
    )
}

fn refused_origin(session: &mut Session<Snow2>) -> Result<(), Refusal> {
    let mut key = [0; LONGEST];
    let mut iv = [0; LONGEST - 1];
    session.origin(&mut key, &mut iv)?;
    Ok(())
}

fn opening_borders(rt: &HostRuntime, session: &mut Session<Snow2>) -> anyhow::Result<()> {
    let iv = [0u8; 16];
    tell(
        rt,
        "open with a limit of 0",
        session.open(&mut [1u8; 16], &iv, 0),
    )?;
    tell(
        rt,
        "open with 17 bytes of key",
        session.open(&mut [1u8; 17], &iv, 16),
    )?;
    tell(
        rt,
        "open with 15 bytes of IV",
        session.open(&mut [1u8; 16], &[0u8; 15], 16),
    )?;
    tell(
        rt,
        "open with a limit of 16 words",
        session.open(&mut [1u8; 16], &iv, 16),
    )?;
    tell(rt, "open again", session.open(&mut [1u8; 16], &iv, 16))
}

fn session_borders(rt: &HostRuntime) -> anyhow::Result<()> {
    let mut session = Session::new(Snow2::new());
    opening_borders(rt, &mut session)?;
    let mut buffer = [0u8; 4];
    tell(
        rt,
        "apply to 5 bytes of 4",
        session.apply_keystream(&mut buffer, 0, 5),
    )?;
    tell(rt, "skip 64", session.skip(64))?;
    tell(
        rt,
        "apply to 0 bytes",
        session.apply_keystream(&mut buffer, 0, 0),
    )?;
    tell(
        rt,
        "apply to 1 byte",
        session.apply_keystream(&mut buffer, 0, 1),
    )?;
    tell(rt, "step back 61", session.step_back(61))?;
    tell(rt, "step back 4", session.step_back(4))?;
    tell(rt, "step back 3", session.step_back(3))?;
    tell(rt, "origin into 254 bytes", refused_origin(&mut session))?;
    tell(rt, "close", session.close())?;
    tell(rt, "close again", session.close())
}

fn tell_label(rt: &HostRuntime, key: &[u8], iv: &[u8], number: usize) -> anyhow::Result<()> {
    match label(key, iv, number) {
        Ok(part) => show::bytes(rt, "label", part),
        Err(fault) => {
            let refused = Refused::with(fault.number());
            println!(rt; "  label {number}: {refused}")?;
            Ok(())
        }
    }
}

fn label_borders(rt: &HostRuntime) -> anyhow::Result<()> {
    let key = [0u8, 0, 0, 3, 0, 0, 0, 2, 0, 0, 0, 1, 0, 0, 0, 0];
    let iv = [0u8, 0, 0, 0x13, 0, 0, 0, 0x12, 0, 0, 0, 0x11, 0, 0, 0, 0x10];
    tell_label(rt, &key, &iv, 3)?;
    tell_label(rt, &key, &iv, 4)?;
    tell_label(rt, &key, &iv, 7)?;
    tell_label(rt, &key, &iv, 8)?;
    tell_label(rt, &[0u8; 24], &iv, 0)?;
    tell_label(rt, &key, &[0u8; 8], 0)
}

pub(crate) fn demonstrate(rt: &HostRuntime) -> anyhow::Result<()> {
    println!(rt; "Calls at the border of what is accepted")?;
    session_borders(rt)?;
    println!(rt; "Labels of a key of four words and an IV")?;
    label_borders(rt)
}
