//! AV/C frames in words: who is addressed, what is commanded or answered, and the operands that have words (AV/C General 3.0; AV/C
//! Tape Recorder/Player Subunit 2.1).
#![tactic(auto)]

mod append;
mod frame;
mod names;
mod operands;

pub use append::append_frame;
pub use frame::put_frame;
pub use operands::OperandRow;
