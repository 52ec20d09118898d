// Lists of calls on one session, and what holds after every one of them.
#![tactic(auto)]

mod replays;
mod requests;

pub use replays::replay;
pub use requests::{Answer, Request};
