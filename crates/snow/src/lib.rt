// SNOW 2.0, SNOW 3G with 256-bit keys and the bare register, as keystream generators.
#![tactic(auto)]

mod bytes;
mod cipher;
mod labels;
mod loading;
mod machines;
mod refusals;
mod register;
mod snow2;
mod snow3g;
mod specimens;

pub use cipher::Snow;
pub use labels::{LabelFault, label};
pub use machines::Machine;
pub use refusals::FillFault;
pub use register::Register;
pub use snow2::{Snow2, Snow2Machine};
pub use snow3g::{Snow3g, Snow3gMachine};
pub use specimens::specimens_hold;
