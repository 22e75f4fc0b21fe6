//! Responses in words, each by the request that it answers.

ghost use Rattle.std.specs.Prelude.{◌≡◌, ◌++◌, [], OnOk};
ghost use Rattle.std.specs.Option.{option_copied};
ghost use Rattle.fw_log_explain.specs.Lines.{block_text, rcode_text, asked_text, unasked_text, response_text, read_text, locked_text, response_details};

use crate::lock::{put_at, put_function, put_old};
use crate::parts::{put_block, put_named_part};
use fw_async::Packet;
use fw_log_names::{Pairs, put_quadlet, put_word, rcode_name};
use fw_log_registers::{RegisterPlace, append_register_word};
use fw_log_requests::{Answer, Asked, Requests};
use std::alloc::AllocError;

/// The response code of a response that is complete (IEEE 1394-1995, response codes).
pub(crate) const COMPLETE: u8 = 0;

// Appends a response code.
#[tactic(auto, unfolding(crate::specs::Lines::rcode_text))]
pub(crate) fn put_rcode(text: &mut Vec<u8>, rcode: u8) -> Result<(), AllocError>
    ensures { OnOk result (text.new.items ≡ text.old.items ++ rcode_text rcode) }
{
    put_named_part(text, " ", rcode_name(rcode), "rcode", u64::from(rcode))
}

// Appends if the request was that a response answers.
#[tactic(auto, unfolding(crate::specs::Lines::asked_text))]
fn put_asked(text: &mut Vec<u8>, q: Option<&Asked>) -> Result<(), AllocError>
    ensures { OnOk result (text.new.items ≡ text.old.items ++ asked_text (option_copied q.entry)) }
{
    match q {
        Some(q) => put_at(text, RegisterPlace::of(q.offset)),
        None => Ok(()),
    }
}

// Appends that no outstanding request is answered, if none is.
#[tactic(auto, unfolding(crate::specs::Lines::unasked_text))]
fn put_unasked(text: &mut Vec<u8>, q: Option<&Asked>) -> Result<(), AllocError>
    ensures { OnOk result (text.new.items ≡ text.old.items ++ unasked_text (option_copied q.entry)) }
{
    match q {
        Some(_) => Ok(()),
        None => put_word(text, ", no request stands"),
    }
}

// Appends a write response.
#[tactic(auto, unfolding(crate::specs::Lines::response_text))]
fn put_write_response(text: &mut Vec<u8>, q: Option<&Asked>, rcode: u8) -> Result<(), AllocError>
    ensures { OnOk result (text.new.items ≡ text.old.items ++ response_text (option_copied q.entry) rcode []) }
{
    put_rcode(text, rcode)?;
    put_asked(text, q)?;
    put_unasked(text, q)
}

// Appends the word that a read brings.
#[tactic(auto, unfolding(crate::specs::Lines::read_text))]
fn put_read(
    text: &mut Vec<u8>,
    pairs: &Pairs,
    q: Option<&Asked>,
    value: u32,
) -> Result<(), AllocError>
    ensures { OnOk result (text.new.items ≡ text.old.items ++ read_text (option_copied q.entry) value) }
{
    match q {
        Some(q) => append_register_word(text, RegisterPlace::of(q.offset), value),
        None => put_quadlet(text, pairs, value),
    }
}

// Appends a response to a read of a quadlet.
#[tactic(auto, unfolding(crate::specs::Lines::response_text))]
fn put_quadlet_response(
    text: &mut Vec<u8>,
    pairs: &Pairs,
    q: Option<&Asked>,
    rcode: u8,
    value: u32,
) -> Result<(), AllocError>
    ensures { OnOk result (text.new.items ≡ text.old.items ++ response_text (option_copied q.entry) rcode (read_text (option_copied q.entry) value)) }
{
    put_rcode(text, rcode)?;
    put_asked(text, q)?;
    if rcode == COMPLETE {
        put_read(text, pairs, q, value)?;
    }
    put_unasked(text, q)
}

// Appends a response to a read of a block.
#[tactic(auto, unfolding(crate::specs::Lines::response_text))]
fn put_block_response(
    text: &mut Vec<u8>,
    pairs: &Pairs,
    q: Option<&Asked>,
    rcode: u8,
    bytes: &[u8],
) -> Result<(), AllocError>
    ensures { OnOk result (text.new.items ≡ text.old.items ++ response_text (option_copied q.entry) rcode (block_text bytes.now)) }
{
    put_rcode(text, rcode)?;
    put_asked(text, q)?;
    if rcode == COMPLETE {
        put_block(text, pairs, bytes)?;
    }
    put_unasked(text, q)
}

// Appends a lock response.
#[tactic(auto, unfolding(crate::specs::Lines::locked_text))]
fn put_lock_response(
    text: &mut Vec<u8>,
    pairs: &Pairs,
    q: Option<&Asked>,
    rcode: u8,
    function: u8,
    bytes: &[u8],
) -> Result<(), AllocError>
    ensures { OnOk result (text.new.items ≡ text.old.items ++ locked_text (option_copied q.entry) rcode function bytes.now) }
{
    put_rcode(text, rcode)?;
    put_function(text, function)?;
    put_asked(text, q)?;
    if rcode == COMPLETE {
        put_old(text, pairs, q, function, bytes)?;
    }
    put_unasked(text, q)
}

// Appends what stands after the name of a response.
#[tactic(auto, unfolding(crate::specs::Lines::response_details))]
pub(crate) fn put_response(
    text: &mut Vec<u8>,
    pairs: &Pairs,
    requests: &Requests,
    p: &Packet,
) -> Result<(), AllocError>
    ensures { OnOk result (text.new.items ≡ text.old.items ++ response_details requests.now p.now) }
{
    match p {
        Packet::WriteReply { head, rcode } => {
            let q = requests.answered(Answer::Write, head);
            put_write_response(text, q.as_ref(), *rcode)
        }
        Packet::ReadQuadletReply { head, rcode, value } => {
            let q = requests.answered(Answer::ReadQuadlet, head);
            put_quadlet_response(text, pairs, q.as_ref(), *rcode, *value)
        }
        Packet::ReadBlockReply { head, rcode, bytes } => {
            let q = requests.answered(Answer::ReadBlock, head);
            put_block_response(text, pairs, q.as_ref(), *rcode, bytes.as_slice())
        }
        Packet::LockReply {
            head,
            rcode,
            function,
            bytes,
        } => {
            let q = requests.answered(Answer::Lock, head);
            put_lock_response(text, pairs, q.as_ref(), *rcode, *function, bytes.as_slice())
        }
        _ => Ok(()),
    }
}
