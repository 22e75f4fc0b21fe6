//! Asynchronous packets in words. Responses have a file of their own.

ghost use Rattle.std.specs.Prelude.{◌≡◌, ◌++◌, OnOk};
ghost use Rattle.fw_async.specs.Heads.{head_of};
ghost use Rattle.fw_log_explain.specs.Lines.{takes_frames, written_quadlet, written_block, at_text, details, head_text, packet_text};

use crate::lock::{put_at, put_lock};
use crate::parts::{put_block, put_part};
use crate::response::put_response;
use fw_async::{Head, Packet};
use fw_log_frames::append_frame;
use fw_log_names::{Pairs, put_node, put_number, put_word, tcode_name};
use fw_log_registers::{NamedRegister, RegisterPlace, append_register_word};
use fw_log_requests::Requests;
use std::alloc::AllocError;

// Frames are written there.
#[tactic(auto, unfolding(crate::specs::Lines::takes_frames))]
fn takes_frames(place: RegisterPlace) -> bool
    ensures { result ≡ takes_frames place }
{
    matches!(
        place,
        RegisterPlace::Named(NamedRegister::FcpCommand | NamedRegister::FcpResponse, _)
    )
}

// Appends a quadlet that is written, where it is written to.
#[tactic(auto, unfolding(crate::specs::Lines::written_quadlet))]
pub(crate) fn put_written_quadlet(
    text: &mut Vec<u8>,
    place: RegisterPlace,
    value: u32,
) -> Result<(), AllocError>
    ensures { OnOk result (text.new.items ≡ text.old.items ++ (at_text place ++ written_quadlet place value)) }
{
    put_at(text, place)?;
    if takes_frames(place) {
        append_frame(text, &value.to_be_bytes())
    } else {
        append_register_word(text, place, value)
    }
}

// Appends a block that is written, where it is written to.
#[tactic(auto, unfolding(crate::specs::Lines::written_block))]
pub(crate) fn put_written_block(
    text: &mut Vec<u8>,
    pairs: &Pairs,
    place: RegisterPlace,
    bytes: &[u8],
) -> Result<(), AllocError>
    ensures { OnOk result (text.new.items ≡ text.old.items ++ (at_text place ++ written_block place bytes.now)) }
{
    put_at(text, place)?;
    if takes_frames(place) {
        append_frame(text, bytes)
    } else {
        put_block(text, pairs, bytes)
    }
}

// Appends what stands after the name of a packet.
#[tactic(auto, unfolding(crate::specs::Lines::details))]
fn put_details(
    text: &mut Vec<u8>,
    pairs: &Pairs,
    requests: &Requests,
    p: &Packet,
) -> Result<(), AllocError>
    ensures { OnOk result (text.new.items ≡ text.old.items ++ details requests.now p.now) }
{
    match p {
        Packet::WriteQuadlet { offset, value, .. } => {
            put_written_quadlet(text, RegisterPlace::of(*offset), *value)
        }
        Packet::WriteBlock { offset, bytes, .. } => {
            put_written_block(text, pairs, RegisterPlace::of(*offset), bytes.as_slice())
        }
        Packet::ReadQuadlet { offset, .. } => put_at(text, RegisterPlace::of(*offset)),
        Packet::ReadBlock { offset, length, .. } => {
            put_at(text, RegisterPlace::of(*offset))?;
            put_word(text, " data_length ")?;
            put_number(text, u64::from(*length))
        }
        Packet::CycleStart { offset, time, .. } => {
            put_at(text, RegisterPlace::of(*offset))?;
            append_register_word(text, RegisterPlace::of(*offset), *time)
        }
        Packet::Lock {
            offset,
            function,
            bytes,
            ..
        } => put_lock(
            text,
            pairs,
            RegisterPlace::of(*offset),
            *function,
            bytes.as_slice(),
        ),
        response => put_response(text, pairs, requests, response),
    }
}

/// The head of a packet.
pub fn head_of(p: &Packet) -> Head
    ensures { result ≡ head_of p.now }
{
    match p {
        Packet::WriteQuadlet { head, .. }
        | Packet::WriteBlock { head, .. }
        | Packet::WriteReply { head, .. }
        | Packet::ReadQuadlet { head, .. }
        | Packet::ReadBlock { head, .. }
        | Packet::ReadQuadletReply { head, .. }
        | Packet::ReadBlockReply { head, .. }
        | Packet::CycleStart { head, .. }
        | Packet::Lock { head, .. }
        | Packet::LockReply { head, .. } => *head,
    }
}

/// Appends from whom a packet goes to whom, and its label. An error says that memory ran out, and comes for nothing else.
#[tactic(auto, unfolding(crate::specs::Lines::head_text))]
pub fn put_head(text: &mut Vec<u8>, pairs: &Pairs, head: &Head) -> Result<(), AllocError>
    ensures { OnOk result (text.new.items ≡ text.old.items ++ head_text head.now) }
{
    put_node(text, pairs, head.source)?;
    put_word(text, " to ")?;
    put_node(text, pairs, head.destination)?;
    put_part(text, " label ", u64::from(head.tl))
}

// Appends a packet, by the outstanding requests before it.
#[tactic(auto, unfolding(crate::specs::Lines::packet_text))]
pub(crate) fn put_packet(
    text: &mut Vec<u8>,
    pairs: &Pairs,
    requests: &Requests,
    p: &Packet,
) -> Result<(), AllocError>
    ensures { OnOk result (text.new.items ≡ text.old.items ++ packet_text requests.now p.now) }
{
    put_head(text, pairs, &head_of(p))?;
    put_word(text, " ")?;
    put_word(text, tcode_name(p))?;
    put_details(text, pairs, requests, p)
}
