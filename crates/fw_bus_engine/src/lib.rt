//! How orders are carried out: what a machine does, half step by half step, and what it writes of it.
//!
//! What an order asks of the machine stands with the machine; which command gives it is asked before.
#![tactic(auto)]

mod bids;
mod carry;
mod cycle_streams;
mod cycles;
mod dubs;
mod exchange;
mod frames;
mod half;
mod lives;
mod playing;
mod requester;
mod reset;
mod rounds;
mod second;
mod steps;
mod streams;
mod tapes;
mod transact;

pub use carry::carry_out;
pub use steps::half_step;
