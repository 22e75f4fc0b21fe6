//! Usual packets: the line of each, and the request that is outstanding from then on, or no longer.

ghost use Rattle.std.specs.Prelude.{◌≡◌, ◌++◌, false, IfOk, IsTrue, OnOk, OnErr, Some};
ghost use Rattle.fw_async.specs.declared.packet.Packet.{Packet as APacket};
ghost use Rattle.fw_async.specs.declared.packet.Packet.TheVariants.{Lock, LockReply, ReadQuadletReply, WriteReply};
ghost use Rattle.fw_async_glance.specs.Glances.{IsGlance};
ghost use Rattle.fw_log_requests.specs.Requests.{answered, asked, with_request, without_answered};
ghost use Rattle.fw_log_requests.specs.declared.asked.Answer.TheVariants.{Write as WriteResponse, ReadQuadlet as ReadQuadletResponse, Lock as LockResponse};
ghost use Rattle.fw_log_explainer.specs.Lines.{IsTold, usual_line, value_words};
ghost use Rattle.std.specs.Int.{to_be_bytes, w32};

use crate::lines::Lines;
use fw_async::Head;
use fw_async_glance::Glance;
use fw_csr::offset::CYCLE_TIME;
use fw_log_explain::{Tail, TailWords};
use fw_log_requests::{Answer, Asked, Requests};
use fw_words::Swap;
use std::alloc::AllocError;

/// The response code of a response that is complete (IEEE 1394-1995, response codes).
const COMPLETE: u8 = 0;

// Appends the line of a request, which stands from then on.
#[inline(always)]
fn put_request(
    lines: &mut Lines,
    requests: &mut Requests,
    cycle: u64,
    head: &Head,
    words: TailWords,
    asked: Asked,
) -> Result<bool, AllocError>
    ensures told { IfOk result (λ put. (lines.new ≡ lines.old ++ usual_line cycle head.now (record { offset = asked.offset; words = words })) × (requests.new ≡ with_request asked requests.old)) }
    ensures put { IfOk result (λ put. IsTrue put) }
    ensures kept { OnErr result (requests.new ≡ requests.old) }
{
    let tail = Tail {
        offset: asked.offset,
        words,
    };
    lines.put_usual(cycle, head, &tail)?;
    requests.ask(asked);
    Ok(true)
}

// Appends the line of a response of this kind, whose request is outstanding no longer.
#[inline(always)]
fn put_response(
    lines: &mut Lines,
    requests: &mut Requests,
    cycle: u64,
    head: &Head,
    tail: &Tail,
    answer: Answer,
) -> Result<bool, AllocError>
    ensures told { IfOk result (λ put. (lines.new ≡ lines.old ++ usual_line cycle head.now tail.now) × (requests.new ≡ without_answered answer head.now requests.old)) }
    ensures put { IfOk result (λ put. IsTrue put) }
    ensures kept { OnErr result (requests.new ≡ requests.old) }
{
    lines.put_usual(cycle, head, tail)?;
    requests.take_answered(answer, head);
    Ok(true)
}

// Appends the line of a compare_swap of a quadlet, which stands from then on.
#[inline(always)]
fn put_swap(
    lines: &mut Lines,
    requests: &mut Requests,
    cycle: u64,
    head: &Head,
    offset: u64,
    argument: u32,
    new: u32,
) -> Result<bool, AllocError>
    ensures told { IfOk result (λ put. IsTold lines.old lines.new requests.old requests.new cycle (Lock head.now offset 2 (to_be_bytes w32 argument ++ to_be_bytes w32 new))) }
    ensures put { IfOk result (λ put. IsTrue put) }
    ensures kept { OnErr result (requests.new ≡ requests.old) }
{
    let swap = Swap { argument, new };
    let asked = Asked::new(head, Answer::Lock, offset, Some(swap));
    put_request(lines, requests, cycle, head, TailWords::Swap(swap), asked)
}

// What a response to a read brings.
#[inline(always)]
fn value_words(rcode: u8, value: u32) -> TailWords
    ensures { result ≡ value_words rcode value }
{
    if rcode == COMPLETE {
        TailWords::Value(value)
    } else {
        TailWords::NoValue(rcode)
    }
}

// Appends the line of the response to a read, if its request is outstanding.
#[inline(always)]
fn put_read_reply(
    lines: &mut Lines,
    requests: &mut Requests,
    cycle: u64,
    head: &Head,
    rcode: u8,
    value: u32,
) -> Result<bool, AllocError>
    ensures told { IfOk result (λ put. IsTrue put → IsTold lines.old lines.new requests.old requests.new cycle (ReadQuadletReply head.now rcode value)) }
    ensures other { IfOk result (λ put. put ≡ false → (lines.new ≡ lines.old) × (requests.new ≡ requests.old)) }
    ensures kept { OnErr result (requests.new ≡ requests.old) }
{
    let Some(asked) = requests.answered(Answer::ReadQuadlet, head) else {
        return Ok(false);
    };
    let tail = Tail {
        offset: asked.offset,
        words: value_words(rcode, value),
    };
    put_response(lines, requests, cycle, head, &tail, Answer::ReadQuadlet)
}

// Appends the line of the response to a compare_swap of a quadlet, if its request is outstanding and it is complete.
#[inline(always)]
fn put_swap_reply(
    lines: &mut Lines,
    requests: &mut Requests,
    cycle: u64,
    head: &Head,
    rcode: u8,
    old: u32,
) -> Result<bool, AllocError>
    ensures told { IfOk result (λ put. IsTrue put → IsTold lines.old lines.new requests.old requests.new cycle (LockReply head.now rcode 2 (to_be_bytes w32 old))) }
    ensures other { IfOk result (λ put. put ≡ false → (lines.new ≡ lines.old) × (requests.new ≡ requests.old)) }
    ensures kept { OnErr result (requests.new ≡ requests.old) }
{
    let Some(asked) = requests.answered(Answer::Lock, head) else {
        return Ok(false);
    };
    match asked.swap {
        Some(swap) if rcode == COMPLETE => {
            let tail = Tail {
                offset: asked.offset,
                words: TailWords::Old(swap, old),
            };
            put_response(lines, requests, cycle, head, &tail, Answer::Lock)
        }
        _ => Ok(false),
    }
}

// Appends the line of the response to a write, if its request is outstanding.
#[inline(always)]
fn put_write_reply(
    lines: &mut Lines,
    requests: &mut Requests,
    cycle: u64,
    head: &Head,
    rcode: u8,
) -> Result<bool, AllocError>
    ensures told { IfOk result (λ put. IsTrue put → IsTold lines.old lines.new requests.old requests.new cycle (WriteReply head.now rcode)) }
    ensures other { IfOk result (λ put. put ≡ false → (lines.new ≡ lines.old) × (requests.new ≡ requests.old)) }
    ensures kept { OnErr result (requests.new ≡ requests.old) }
{
    let Some(asked) = requests.answered(Answer::Write, head) else {
        return Ok(false);
    };
    let tail = Tail {
        offset: asked.offset,
        words: TailWords::Written(rcode),
    };
    put_response(lines, requests, cycle, head, &tail, Answer::Write)
}

/// Appends the line of a packet of a usual kind and takes it, and answers whether it did.
#[inline(always)]
pub(crate) fn put_usual(
    lines: &mut Lines,
    requests: &mut Requests,
    cycle: u64,
    glance: Glance,
) -> Result<bool, AllocError>
    ensures told { (p : APacket) → IsGlance glance p → IfOk result (λ put. IsTrue put → IsTold lines.old lines.new requests.old requests.new cycle p) }
    ensures other { IfOk result (λ put. put ≡ false → (lines.new ≡ lines.old) × (requests.new ≡ requests.old)) }
    ensures kept { OnErr result (requests.new ≡ requests.old) }
{
    match glance {
        Glance::Read { head, offset } => {
            let asked = Asked::new(&head, Answer::ReadQuadlet, offset, None);
            put_request(lines, requests, cycle, &head, TailWords::Read, asked)
        }
        Glance::Swap { head, offset, swap } => put_swap(
            lines,
            requests,
            cycle,
            &head,
            offset,
            swap.argument,
            swap.new,
        ),
        Glance::Write {
            head,
            offset,
            value,
        } => {
            let asked = Asked::new(&head, Answer::Write, offset, None);
            put_request(
                lines,
                requests,
                cycle,
                &head,
                TailWords::Write(value),
                asked,
            )
        }
        Glance::WritePair {
            head,
            offset,
            first,
            second,
        } => {
            let asked = Asked::new(&head, Answer::Write, offset, None);
            let words = TailWords::WritePair(first, second);
            put_request(lines, requests, cycle, &head, words, asked)
        }
        Glance::ReadReply { head, rcode, value } => {
            put_read_reply(lines, requests, cycle, &head, rcode, value)
        }
        Glance::SwapReply { head, rcode, old } => {
            put_swap_reply(lines, requests, cycle, &head, rcode, old)
        }
        Glance::WriteReply { head, rcode } => {
            put_write_reply(lines, requests, cycle, &head, rcode)
        }
        Glance::CycleStart { head, offset, time } if offset == CYCLE_TIME => {
            lines.put_start(cycle, &head, time)
        }
        _ => Ok(false),
    }
}
