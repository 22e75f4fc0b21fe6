//! The names of what a log holds, and numbers and bytes as text: what each word that tells a log's entries is made from.
//!
//! A table of names is one function, from a code to its name if it has one. What is appended goes after the text that is
//! there already; an error says that memory ran out, and comes for nothing else.
#![tactic(auto)]

mod append;
mod bus;
mod cycle_row;
mod entries;
mod hex;
mod packets;
mod pairs;

pub use append::{put_named, put_number, put_word};
pub use bus::{device_name, port_name, speed_name};
pub use cycle_row::CycleRow;
pub use entries::{event_name, event_saying, kind_name, kind_number, outcome_name, system_name};
pub use hex::{
    put_blank_hex, put_bytes, put_hex2, put_hex4, put_hex6, put_hex8, put_hex12, put_quadlet,
    put_quadlets,
};
pub use packets::{
    format_name, function_name, put_node, rcode_name, retry_name, tcode, tcode_name,
};
pub use pairs::Pairs;
