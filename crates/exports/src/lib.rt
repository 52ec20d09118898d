// The collection as C and Rust programs can link it: a handful of calls on numbers and slices.
#![tactic(auto)]

mod answers;
mod boxes;
mod faults;
mod filled;
mod keystreams;
mod labels;
mod sheets;
mod streams;
mod traces;

pub use answers::{LabelPart, Names, Outcome, SheetReport};
pub use boxes::{jorumdell_box, jorumdell_table};
pub use keystreams::jorumdell_keystream;
pub use labels::jorumdell_label;
pub use sheets::jorumdell_sheet;
pub use streams::jorumdell_words;
pub use traces::jorumdell_trace;
