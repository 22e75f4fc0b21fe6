//! The tape subunit of a deck (AV/C Tape Recorder/Player Subunit 2.1): its transport, the tape in it, the blocks that a
//! playing tape gives, and the desk that says what stands in them.
#![tactic(auto)]

mod cassette;
mod command;
mod copies;
mod desk;
mod laws;
mod row;
mod system;
mod tape;
mod time_code;
mod transport;

pub use cassette::{BlockPlace, Cassette};
pub use desk::Desk;
pub use laws::{blocks_are_due_in_order, commands_enter_their_states, frames_are_counted};
pub use row::TapeRow;
pub use system::TapeSystem;
pub use tape::Tape;
pub use transport::Transport;
