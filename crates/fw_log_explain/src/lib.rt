//! The entries of a log in words, a line each: the cycle, and then what happened. A response is told by the request that it
//! answers, so each line is a function of the outstanding requests before its entry.
#![tactic(auto)]

mod events;
mod line;
mod lock;
mod packet;
mod parts;
mod reset;
mod response;
mod tail;

pub use events::{
    put_event, put_iso, put_outcome, put_saying, put_shown, put_tape, put_value, shown_place,
};
pub use line::put_what;
pub use packet::{head_of, put_head};
pub use reset::{put_epoch, put_further, put_later, put_manager, put_row, put_self};
pub use tail::{Tail, TailWords, put_tail};
