//! `watch`: what a log shows of the channels, bandwidth and plugs of a bus of which one does not see everything. Each register that
//! connections live in is followed from answer to answer; what happens is told as it is seen, what changed unseen is told if it
//! shows, and what no orderly bus does is told as a finding.
#![tactic(auto)]

mod answer;
mod found;
mod hear;
mod held;
mod judge;
mod step;
mod swap;
mod tell_swap;
mod watch;

pub use watch::Watch;
