//! A checker for logs, whoever made them: an `Audit` takes a log entry by entry and answers the first fault.
#![tactic(auto)]

mod answers;
mod audit;
mod passing;
mod refusals;
mod shown;
mod sound;
mod tally;
mod unjudged;
mod watch;
mod words;

pub use audit::{Audit, take_entry};
pub use fw_model_audit::AuditFault;
pub use passing::{has_other_label, is_passed_over, is_passed_packet};
pub use sound::take_packet;
pub use tally::Tally;
pub use unjudged::{UNJUDGED_ROOM, is_unjudged, is_unjudged_packet, unjudged_text};
pub use watch::{is_watched, watched_offset};
