//! A page: what stands before and after the lines of a log, the marks of these lines, and how a log ended.
#![tactic(auto)]

mod ends;
mod head;
mod marks;
mod tail;

pub use ends::put_log_line;
pub use head::HEAD;
pub use marks::{EXPLAIN, HOLDERS, WATCH, put_marked};
pub use tail::TAIL;
