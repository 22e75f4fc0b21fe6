//! The connection controllers of the bus (IEC 61883-1, connection management): the order of their jobs, their turns, what an
//! answer, a bus reset, the end of a second and a lost response make of them. What the stages of a job ask, and what follows the
//! answers, is in fw_cmp_jobs; those names of it that a user of controllers needs are here too.
#![tactic(auto)]

mod agenda;
mod ask;
mod controller;
mod copies;
mod current;
mod laws;
mod marks;
mod order;
mod outcome;
mod overtaking;
mod turn;
mod work;

pub use controller::Controller;
pub use current::{Current, WaitingJob};
pub use fw_cmp_jobs::{
    Access, Connection, Directory, Ending, Flow, HeldResources, Job, Outcome, Purpose, Slot, Stage,
    Target, Then, answers_decide_by_what_they_show, the_remainder_is_the_word,
};
pub use laws::{
    controllers_go_on, starts_are_refused_by_the_rules, the_directory_decides_only_as_a_job_begins,
};
pub use outcome::{Next, StartFault};
