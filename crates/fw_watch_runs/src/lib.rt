//! What `watch` finds in logs of runs, and what an audit judges of them: laws, and no code. No crate stands on this one.
#![tactic(auto)]

mod laws;

pub use laws::{run_logs_are_orderly, runs_have_no_bad_swap, runs_leave_nothing_unjudged};
