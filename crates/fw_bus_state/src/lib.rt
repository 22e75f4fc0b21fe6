//! What a simulated bus keeps: devices with their nodes' registers, controllers' stages, candidates, streams and a reel; and the
//! entries that are written of it.
//!
//! It keeps no account of channels and units. `StandsFor` says for which states of a run a machine stands.
#![tactic(auto)]

mod candidates;
mod controllers;
mod copies;
pub mod entries;
mod giving;
mod machine;
mod recording;
mod restarts;
mod room;
mod streams;

pub use candidates::Candidates;
pub use controllers::Controllers;
pub use giving::{emit, emit_packet, give_async, put_entry};
pub use machine::Machine;
pub use recording::{Recording, hear_block, keep, recording_on};
pub use room::WriteBuffers;
pub use streams::Streams;
