//! The words whose report on a log comes at its end, or tells what changes: `dv`, `audit`, `holders`, `watch`, `map` and its graph.
//!
//! Each is a `Reading` of a file of its own with the call that reads a log by it, and `fw_log_loop` has the loop.
#![tactic(auto)]

mod holding;
mod last_reset;
mod laws;
mod mapping;
mod passing;
mod refusal;
mod streams;
mod unsound;
mod verdict;
mod watching;
mod whole_entry;
mod whole_reset;

pub use fw_log_loop::{LogEnding, Stop};
pub use holding::{Holding, holders};
pub use laws::sound_logs_are_vouched;
pub use mapping::{map, map_graph};
pub use refusal::{LogRefusal, NoMap, Unsound};
pub use streams::dv;
pub use unsound::{UNSOUND_ROOM, unsound_text};
pub use verdict::audit;
pub use watching::{Watching, watch};
pub use whole_entry::WholeRoom;
