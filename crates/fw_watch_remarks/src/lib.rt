//! What `watch` tells: remarks, a line each, and what they speak of, the registers that are watched and what is known of them.
#![tactic(auto)]

mod count;
mod findings;
mod journal;
mod known;
mod nodes;
mod parts;
mod register;
mod remark;
mod seconds;
mod texts;
mod unseen;

pub use count::counted;
pub use journal::Journal;
pub use known::{Known, Managed, bit, is_connected};
pub use register::{At, WatchedRegister};
pub use remark::Remark;
