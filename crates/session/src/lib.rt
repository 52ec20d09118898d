// Sessions: a message's way through any keystream generator.
#![tactic(auto)]

mod calls;
mod join;
mod openings;
mod refusals;
mod state;
mod steps;
mod traces;
mod wiped;

pub use refusals::{Refusal, TraceFault};
pub use state::Session;
pub use traces::trace;
