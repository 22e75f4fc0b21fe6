//! The entries of a bus's log, and the header before them, written as bytes.
//!
//! The header is the quadlets 31333934, the version, 0 and 0 in hexadecimal. An entry is its kind (8 bits), a zero byte,
//! the length of its body in quadlets (16 bits), in version 2 the epoch of the latest bus reset up to and including it
//! (32 bits), its cycle (64 bits) and its body, each number with the most significant byte first. Cycles never fall, and
//! nothing follows the entry of kind 7. The format is own.
#![tactic(auto)]

pub mod codes;
mod copies;
mod entry;
mod entry_room;
mod laws;
mod nodes;
mod room;
mod rows;
mod size;
mod version;
mod write;
mod write_body;

pub use entry::{
    BorrowedReset, Entry, EventEntry, OutcomeEntry, ResetEntry, ShownEntry, Timed, epoch_after,
};
pub use entry_room::EntryRoom;
pub use laws::{codes_are_those_of_the_log, codes_say_what_entries_have};
pub use nodes::{NodeList, NodeRow};
pub use room::CycleRoom;
pub use rows::{
    EVENTS, EventForm, OUTCOMES, OutcomeForm, event_form, has_tape, may_bring, may_have,
};
pub use size::entry_size;
pub use version::Version;
pub use write::{body_of, head_of, long_head, short_head, write_async, write_entry, write_header};
