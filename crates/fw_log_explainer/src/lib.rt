//! The lines of a log's entries in words, one after another: what `fw_log_explain` says of each entry, put together with little work for the
//! entries that most logs have. Of a usual packet no value is made: what it says is read where it stands, the prefix of its line is written in
//! place, and what stands after it is kept as text, since many packets of a log say the same.
#![tactic(auto)]

mod cycle_start;
mod explainer;
mod iso;
mod latest;
mod lines;
mod memo;
mod prefix;
mod usual;
mod write;

pub use explainer::Explainer;
