//! The program as one call: its desk, and the top call with it.
#![tactic(auto)]

mod call;
mod desk;
mod laws;

pub use call::program;
pub use fw_tool::{Ending, Flush, NOTE_ROOM, tell};
pub use laws::program_desk_is_a_function;
