//! The jobs of a connection controller (IEC 61883-1, connection management): connections and the slots that hold them, the stages
//! of a job, what each asks of a register, and what follows the answer.
#![tactic(auto)]

mod begin;
mod connection;
mod directory;
mod hear;
mod input;
mod job;
mod laws;
mod outcome;
mod output;
mod release;
mod request;
mod resources;
pub mod slots;
mod stage;
mod words;

pub use connection::{Connection, Flow, Slot};
pub use directory::Directory;
pub use job::{Ending, HeldResources, Job, Purpose, Then};
pub use laws::{answers_decide_by_what_they_show, the_remainder_is_the_word};
pub use outcome::Outcome;
pub use request::{Access, Target};
pub use stage::Stage;
