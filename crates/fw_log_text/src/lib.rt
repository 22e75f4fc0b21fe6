//! The entries of a log as text, one line each: the cycle, and then what is recorded, separated by one space (own).
//!
//! - a reset: `reset EPOCH root NODE manager NODE by NODE:`, with `none` if there is no manager, and the first
//!   quadlet of each self-ID packet
//! - an asynchronous packet: `async NAME`, and all its quadlets
//! - an isochronous packet: `iso CHANNEL LENGTH DBC`, LENGTH being its data_length
//! - an event: `event NAME`, the device if it has one, and of an inserted tape its number and system
//! - an outcome: `outcome NAME DEVICE SLOT VALUE`
//! - a shown word: `shown DEVICE OFFSET WORD`
//! - the end: `end`
//!
//! Quadlets, values of outcomes and shown words are eight lower-case hexadecimal digits, offsets are three, and
//! other numbers are decimal.
//!
//! The report of a log's streams has a line for each channel that has isochronous packets.
#![tactic(auto)]

mod line;
mod lines;
mod names;
mod numbers;
mod quadlets;
mod report;
mod resets;
mod room;
mod rows;
mod tables;
mod text;
mod text_room;

pub use quadlets::quadlet_word;
pub use report::StreamReport;
pub use room::{
    LineRoom, put_entry, put_entry_from, put_iso_from, put_packet_from, put_reset_from,
};
pub use text::entry_text;
