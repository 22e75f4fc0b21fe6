//! The outstanding requests after the entries of a log: those that no response has answered since the latest bus reset.
#![tactic(auto)]

mod asked;
mod requests;

pub use asked::{Answer, Asked};
pub use requests::Requests;
