//! The registers of a node by name, and what their words and swaps say (IEEE 1212; IEEE 1394-1995, 8.3.2; IEC 61883-1, 7 and 9).
#![tactic(auto)]

mod append;
mod channels;
mod fields;
mod place;
mod register;
mod shown;
mod text;
mod told;

pub use append::{append_place, append_register_word, append_told};
pub use place::RegisterPlace;
pub use register::NamedRegister;
pub use shown::{Amount, Shown};
pub use text::{put_place, put_register_word, put_told};
pub use told::RegisterValue;
