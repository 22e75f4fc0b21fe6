//! Candidates for the bus manager (IEEE 1394-1995, 8.4.2.5): each makes one bid an epoch for BUS_MANAGER_ID, by a compare_swap
//! that stores its node number if no bus manager is registered yet.
#![tactic(auto)]

mod bid;
mod candidate;

pub use bid::Bid;
pub use candidate::{BidProgress, Candidate};
