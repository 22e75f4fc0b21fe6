//! The entries of a log as JSON (RFC 8259), one object a line, with every field (own).
//!
//! Keys come in a fixed order, with no spaces between tokens, and each key of a kind is always there. The line depends on the
//! entry alone. A code stands under two keys: its number, and its name in its table, `null` if that has none. Numbers are
//! decimal; quadlets, offsets, node_IDs and bytes are texts of lower-case hexadecimal digits, the most significant first. A cycle
//! from 2^53 on is a text of its decimal digits, since readers of JSON hold greater numbers rounded.
#![tactic(auto)]

mod digits;
mod entry;
mod head;
mod ids;
mod iso;
mod latest;
mod laws;
mod lines;
mod packet;
mod prefix;
mod prefix_row;
mod reset;
mod room;
mod values;

pub use laws::{objects_are_lines, objects_tell_entries};
pub use room::{
    ObjectRoom, put_iso_from, put_object, put_packet_from, put_reset_again, put_reset_from,
};
