// Layers over any generator: two generators at once, and every other word of one.
#![tactic(auto)]

ghost use Rattle.layers.specs.Piles.{PilesStand};

mod every_other;
mod origins;
mod pair;
mod parts;
mod short;

pub use every_other::EveryOther;
pub use pair::Pair;

// On its contract stands what holds of every pile of layers.
pub fn piles_stand()
    ensures { PilesStand }
{}
