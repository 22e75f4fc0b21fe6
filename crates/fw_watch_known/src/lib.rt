//! What is known of a bus of which one does not see everything, from answers, shown words and packets; and how each of them changes it.
#![tactic(auto)]

mod change;
mod channel;
mod channels;
mod counts;
mod hear;
mod judge;
mod lateness;
mod plugs;
mod second;
mod state;
mod swap;
mod used;

pub use change::only_change;
pub use channel::{Channel, Due, Noted};
pub use channels::{Channels, Late};
pub use counts::Counts;
pub use fw_watch_requests::{Answer, Asked, Asking, OutstandingRequests};
pub use hear::{Heard, Packet};
pub use plugs::Plugs;
pub use second::{Before, Second};
pub use state::{Manager, State};
pub use swap::Made;
