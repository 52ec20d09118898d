// Byte fields, the boxes of SNOW 2.0 and SNOW 3G, and multiplication by α.
#![tactic(auto)]

mod alpha;
mod boxes;
mod doubling;
mod mixing;
mod tables;
mod word_box;

pub use alpha::{div_alpha_entry, mul_alpha_entry, over_alpha, times_alpha};
pub use boxes::{S1, S2};
pub use doubling::double;
pub use mixing::mix;
pub use word_box::WordBox;
