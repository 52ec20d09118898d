// Tasks from start to end, printed so that a person can follow them.
#![tactic(auto)]

mod borders;
mod piles;
mod registers;
mod sessions;
mod show;

fn demonstrate(rt: &HostRuntime) -> anyhow::Result<()> {
    registers::demonstrate(rt)?;
    piles::demonstrate(rt)?;
    sessions::demonstrate(rt)?;
    borders::demonstrate(rt)
}

fn main(rt: HostRuntime) -> anyhow::Result<()> {
    demonstrate(&rt)
}
