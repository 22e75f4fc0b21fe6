//! The account of a log in tables: what they tell of registers, plugs and controllers, and which swaps of registers are moves.
#![tactic(auto)]

mod channel;
mod connection;
mod held;
mod input;
mod output;
mod place;
mod reads;
mod register;
mod request;
mod tables;
mod units;
mod used;

pub use register::Register;
pub use tables::{Addressed, Asked, Broadcaster, Charge, Reclaimable, Seats, Tables, first_high};
