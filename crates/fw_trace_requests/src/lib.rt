//! Requests and what answers them, as a trace tells them: the latest request of each node under each label, the request that is held back
//! since its answer may come next, and their lines.
#![tactic(auto)]

mod answers;
mod carried;
mod held;
mod made;
mod memo;
mod packets;
mod phrase;
mod pieces;
mod replies;
mod requests;
mod rows;
mod spread;
mod words;

pub use carried::Carried;
pub use held::{Bare, HeldBack};
pub use made::MadeLine;
pub use memo::Memo;
pub use packets::Reply;
pub use replies::put_response;
pub use requests::{Requests, asked, asked_by};
