//! The names of packets and of what stands in them.

ghost use Rattle.std.specs.Prelude.{◌≡◌, ◌++◌, OnOk};
ghost use Rattle.std.specs.Option.{option_copied};
ghost use Rattle.fw_log_names.specs.Names.{tcode, tcode_name, rcode_name, function_name, retry_name, format_name, node_text};

use crate::append::{put_number, put_word};
use crate::hex::put_hex4;
use crate::pairs::Pairs;
use fw_async::{Packet, local_number};
use fw_cip::CipHeader;
use fw_text::name_in;
use std::alloc::AllocError;

/// The node_ID of all nodes.
const BROADCAST: u16 = 0xffff;

/// The row of a packet's kind, by `$row!`: its transaction code and the name of that, after what else is handed on. `Packet` is in scope
/// where it is called.
#[macro_export]
macro_rules! tcode_row {
    ($packet:expr, $row:ident $(, $with:expr)*) => {
        match $packet {
            Packet::WriteQuadlet { .. } => $row!($($with,)* 0, "write_quadlet_request"),
            Packet::WriteBlock { .. } => $row!($($with,)* 1, "write_block_request"),
            Packet::WriteReply { .. } => $row!($($with,)* 2, "write_response"),
            Packet::ReadQuadlet { .. } => $row!($($with,)* 4, "read_quadlet_request"),
            Packet::ReadBlock { .. } => $row!($($with,)* 5, "read_block_request"),
            Packet::ReadQuadletReply { .. } => $row!($($with,)* 6, "read_quadlet_response"),
            Packet::ReadBlockReply { .. } => $row!($($with,)* 7, "read_block_response"),
            Packet::CycleStart { .. } => $row!($($with,)* 8, "cycle_start"),
            Packet::Lock { .. } => $row!($($with,)* 9, "lock_request"),
            Packet::LockReply { .. } => $row!($($with,)* 11, "lock_response"),
        }
    };
}

/// The row of a response code, by `$row!`: the code and its name, after what else is handed on; or `$other` if it has no name.
#[macro_export]
macro_rules! rcode_row {
    ($rcode:expr, $other:expr, $row:ident $(, $with:expr)*) => {
        match $rcode {
            0 => $row!($($with,)* 0, "complete"),
            4 => $row!($($with,)* 4, "conflict_error"),
            5 => $row!($($with,)* 5, "data_error"),
            6 => $row!($($with,)* 6, "type_error"),
            7 => $row!($($with,)* 7, "address_error"),
            _ => $other,
        }
    };
}

/// The row of a retry code, likewise; each of two bits has one.
#[macro_export]
macro_rules! retry_row {
    ($rt:expr, $other:expr, $row:ident $(, $with:expr)*) => {
        match $rt {
            0 => $row!($($with,)* 0, "retry_1"),
            1 => $row!($($with,)* 1, "retry_x"),
            2 => $row!($($with,)* 2, "retry_a"),
            3 => $row!($($with,)* 3, "retry_b"),
            _ => $other,
        }
    };
}

macro_rules! code_of {
    ($code:literal, $name:literal) => {
        $code
    };
}

macro_rules! name_of {
    ($code:literal, $name:literal) => {
        $name
    };
}

macro_rules! some_name {
    ($code:literal, $name:literal) => {
        Some($name)
    };
}

/// The transaction code of a packet.
pub fn tcode(p: &Packet) -> u8
    ensures { result ≡ tcode p.now }
{
    tcode_row!(p, code_of)
}

/// The name of a packet's transaction code.
pub fn tcode_name(p: &Packet) -> &'static str
    ensures { result.now ≡ tcode_name p.now }
{
    tcode_row!(p, name_of)
}

/// The name of a response code, if it has one.
pub fn rcode_name(rcode: u8) -> Option<&'static str>
    ensures { option_copied result ≡ rcode_name rcode }
{
    rcode_row!(rcode, None, some_name)
}

/// The functions of locks, by their extended_tcode.
pub const FUNCTIONS: [(u16, &str); 7] = [
    (1, "mask_swap"),
    (2, "compare_swap"),
    (3, "fetch_add"),
    (4, "little_add"),
    (5, "bounded_add"),
    (6, "wrap_add"),
    (7, "vendor_dependent"),
];

/// The name of a lock's function, its extended_tcode; 1 to 7 have one.
pub fn function_name(function: u8) -> Option<&'static str>
    ensures { option_copied result ≡ function_name function }
{
    name_in(&FUNCTIONS, u16::from(function))
}

/// The name of a retry code; each of two bits has one.
pub fn retry_name(rt: u8) -> Option<&'static str>
    ensures { option_copied result ≡ retry_name rt }
{
    retry_row!(rt, None, some_name)
}

/// The name of the format that a CIP header tells, if it has one: FMT is 0, and the first byte of FDF names the format.
pub fn format_name(cip: &CipHeader) -> Option<&'static str>
    ensures { option_copied result ≡ format_name cip.now }
{
    if cip.fmt != 0 {
        return None;
    }
    match cip.fdf >> 16 {
        0x00 => Some("SD-DVCR 525-60"),
        0x80 => Some("SD-DVCR 625-50"),
        _ => None,
    }
}

/// Appends a node_ID: `broadcast`, `node` and a number on the local bus, or `node_ID` and its four digits.
#[inline(always)]
pub fn put_node(text: &mut Vec<u8>, pairs: &Pairs, id: u16) -> Result<(), AllocError>
    ensures { OnOk result (text.new.items ≡ text.old.items ++ node_text id) }
{
    if id == BROADCAST {
        return put_word(text, "broadcast");
    }
    let Some(number) = local_number(id) else {
        put_word(text, "node_ID ")?;
        return put_hex4(text, pairs, id);
    };
    put_word(text, "node ")?;
    put_number(text, u64::from(number))
}
