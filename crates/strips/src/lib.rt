// Strips: recorded lists of session calls, run over any keystream generator.
#![tactic(auto)]

mod answers;
mod bytes;
mod cursor;
mod orders;
mod replies;
mod runs;
mod sheets;
mod stops;
mod strip;

pub use runs::run;
pub use sheets::answer_sheet;
pub use stops::{Report, Stop};
