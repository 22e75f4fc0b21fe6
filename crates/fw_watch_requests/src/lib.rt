//! The requests at watched registers that no response has answered yet, and what a response that answers one says of its register.
#![tactic(auto)]

mod asked;
mod standing;
mod taking;

pub use asked::{Answer, Asked, Asking, node_id, node_of};
pub use standing::OutstandingRequests;
