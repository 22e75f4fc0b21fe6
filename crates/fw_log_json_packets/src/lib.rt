//! Packets of the usual kinds as members of JSON objects (RFC 8259), written in place (own).
//!
//! The members of an object are a text that depends on the packet alone: those of an asynchronous packet and of an isochronous one.
//! Packets of the usual kinds, as nearly all are, are written straight from their bytes, over the bytes of a text that has room.
#![tactic(auto)]

mod blocks;
mod cip;
mod digits;
mod fields;
mod kinds;
mod parts;
mod requests;
mod responses;
mod rows;
mod standing;
mod swaps;
mod text_room;
mod usual;
mod usual_iso;

pub use cip::{block_bytes, has_usual_sizes, is_untimed_525, is_untimed_625};
pub use digits::{LONGEST, digits_of, write_digits};
pub use parts::{addressee, place, quadlet, usual_sender};
pub use rows::PREFIX;
pub use text_room::TextRoom;
pub use usual_iso::is_usual_iso;
