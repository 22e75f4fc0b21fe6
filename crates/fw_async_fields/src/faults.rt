//! The first fault that bytes show, and how many bytes their packet takes.

ghost use Rattle.std.specs.Prelude.{◌≡◌, ◌≤◌, ◌<◌, ◌+◌, ◌-◌, ◌^◌, length, IfSome, IfOk, IsSome, IsTrue, ◌↔◌};
ghost use Rattle.std.specs.Result.{result_err};
ghost use Rattle.fw_words.specs.Quadlet.{quadlet_at};
ghost use Rattle.fw_async_fields.specs.Tcode.{code_of, is_known};
ghost use Rattle.fw_async_fields.specs.Reading.{fault_in_quadlet_1, fault_in_quadlet_2, fault_in_quadlet_3, fault_in_padding, fault_in_block_size, fault_in_lock_size, fault_after_quadlet_0};
ghost use Rattle.fw_async_fields.specs.Reading.{fault_after_quadlet_2, reserved, tcode_of, fault_of, need};

use crate::PacketFault;
use crate::data::length_at;
use crate::sizes::{is_lock_size, is_reply_size};
use crate::tcode::Tcode;
use fw_words::{Quadlet, first_set, quadlet_at};

/// The transaction code in quadlet 0.
pub fn tcode_at(bytes: &[u8]) -> Option<Tcode>
    requires { 4 ≤ length bytes.now }
    ensures known { IsSome result ↔ IsTrue (is_known (tcode_of bytes.now)) }
    ensures same { IfSome result (λ t. code_of t ≡ tcode_of bytes.now) }
{
    Tcode::from_code(quadlet_at(bytes, 0).field(24, 27))
}

// The first of the bits from `first` on that is 1, if `before` bits stand before the quadlet.
fn reserved(before: u32, q: Quadlet, first: u8) -> Option<PacketFault>
    requires range { first ≤ 31 }
    requires few { before ≤ 96 }
    ensures { result ≡ reserved before q.0 first (32 - first) }
{
    if q.field(first, 31) == 0 {
        return None;
    }
    first_set(q, first, 31).map(|bit| PacketFault::Reserved(before + bit as u32))
}

// The 12 zeros after a response's rcode.
#[tactic(auto, unfolding(crate::specs::Reading::fault_in_quadlet_1))]
fn fault_in_quadlet_1(tcode: Tcode, q: Quadlet) -> Option<PacketFault>
    ensures { result ≡ fault_in_quadlet_1 (code_of tcode) q.0 }
{
    if tcode.is_response() {
        reserved(32, q, 20)
    } else {
        None
    }
}

// The 32 zeros that a response has in place of an offset.
#[tactic(auto, unfolding(crate::specs::Reading::fault_in_quadlet_2))]
fn fault_in_quadlet_2(tcode: Tcode, q: Quadlet) -> Option<PacketFault>
    ensures { result ≡ fault_in_quadlet_2 (code_of tcode) q.0 }
{
    if tcode.is_response() {
        reserved(64, q, 0)
    } else {
        None
    }
}

// data_length, and 16 zeros, which are looked at first.
fn fault_in_block_size(q: Quadlet) -> Option<PacketFault>
    ensures { result ≡ fault_in_block_size q.0 }
{
    let len = q.field(0, 15);
    if q.field(16, 31) != 0 {
        reserved(96, q, 16)
    } else if len > 512 {
        Some(PacketFault::TooLong(len as u16))
    } else {
        None
    }
}

// data_length, and the extended_tcode, which is looked at first; `fits` says whether they go together.
fn fault_in_lock_size(q: Quadlet, fits: bool) -> Option<PacketFault>
    ensures { result ≡ fault_in_lock_size q.0 fits }
{
    let function = q.field(16, 31);
    if function == 0 || function > 7 {
        Some(PacketFault::Reserved(112))
    } else if fits {
        None
    } else {
        Some(PacketFault::BadLength(q.field(0, 15) as u16))
    }
}

#[tactic(auto, unfolding(crate::specs::Reading::fault_in_quadlet_3))]
fn fault_in_quadlet_3(tcode: Tcode, q: Quadlet) -> Option<PacketFault>
    ensures { result ≡ fault_in_quadlet_3 (code_of tcode) q.0 }
{
    let len = q.field(0, 15);
    match tcode {
        Tcode::WriteBlock | Tcode::ReadBlock | Tcode::ReadBlockReply => fault_in_block_size(q),
        Tcode::Lock => fault_in_lock_size(q, is_lock_size(q.field(16, 31), len)),
        Tcode::LockReply => fault_in_lock_size(q, is_reply_size(len)),
        _ => None,
    }
}

// The first byte from `at` on that is not 0.
fn fault_in_padding(bytes: &[u8], at: usize) -> Option<PacketFault>
    requires { length bytes.now < 2 ^ 32 }
    ensures { result ≡ fault_in_padding bytes.now at (length bytes.now - at) }
{
    for place in at..bytes.len() {
        if bytes[place] != 0 {
            return Some(PacketFault::BadPadding(place as u32));
        }
    }
    None
}

fn fault_after_quadlet_2(tcode: Tcode, bytes: &[u8]) -> Option<PacketFault>
    requires { length bytes.now < 2 ^ 32 }
    ensures { result ≡ fault_after_quadlet_2 (code_of tcode) bytes.now }
{
    if bytes.len() < 16 {
        return None;
    }
    match fault_in_quadlet_3(tcode, quadlet_at(bytes, 12)) {
        Some(fault) => Some(fault),
        None if tcode.has_data() => fault_in_padding(bytes, 16 + length_at(bytes)),
        None => None,
    }
}

fn fault_after_quadlet_0(tcode: Tcode, bytes: &[u8]) -> Option<PacketFault>
    requires { length bytes.now < 2 ^ 32 }
    ensures { result ≡ fault_after_quadlet_0 (code_of tcode) bytes.now }
{
    if bytes.len() < 8 {
        return None;
    }
    if let Some(fault) = fault_in_quadlet_1(tcode, quadlet_at(bytes, 4)) {
        return Some(fault);
    }
    if bytes.len() < 12 {
        return None;
    }
    match fault_in_quadlet_2(tcode, quadlet_at(bytes, 8)) {
        Some(fault) => Some(fault),
        None => fault_after_quadlet_2(tcode, bytes),
    }
}

// How many bytes the packet takes at least.
fn need(tcode: Tcode, bytes: &[u8]) -> usize
    requires begun { 4 ≤ length bytes.now }
    requires kind { code_of tcode ≡ tcode_of bytes.now }
    ensures { result ≡ need bytes.now }
{
    if !tcode.has_quadlet_3() {
        12
    } else if bytes.len() < 16 || !tcode.has_data() {
        16
    } else {
        let len = length_at(bytes);
        16 + len + 3 * len % 4
    }
}

/// The first fault that the bytes show, or how many bytes the packet takes at least, by what is there of it.
#[tactic(auto, unfolding(crate::specs::Reading::fault_in_quadlet_0))]
pub fn least_length(bytes: &[u8]) -> Result<usize, PacketFault>
    requires { length bytes.now < 2 ^ 32 }
    ensures fault { result_err result ≡ fault_of bytes.now }
    ensures need { IfOk result (λ n. n ≡ need bytes.now) }
{
    if bytes.len() < 4 {
        return Ok(12);
    }
    let Some(tcode) = tcode_at(bytes) else {
        return Err(PacketFault::UnknownTcode);
    };
    match fault_after_quadlet_0(tcode, bytes) {
        Some(fault) => Err(fault),
        None => Ok(need(tcode, bytes)),
    }
}
