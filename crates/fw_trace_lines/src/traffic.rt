//! What packets of usual kinds are to a trace: requests and responses.

ghost use Rattle.std.specs.Prelude.{◌≡◌};
ghost use Rattle.std.specs.Int.{to_be_bytes, w32};
ghost use Rattle.fw_async.specs.declared.packet.Packet.{Packet as APacket};
ghost use Rattle.fw_async_glance.specs.Glances.{IsGlance};
ghost use Rattle.fw_log_requests.specs.Requests.{asked};
ghost use Rattle.fw_log_requests.specs.declared.asked.Answer.TheVariants.{Lock as LockResponse};
ghost use Rattle.fw_trace_requests.specs.Replies.{quadlet_of};
ghost use Rattle.fw_words.specs.Swaps.{quadlet_swap, swap_bytes};
ghost use Rattle.fw_trace_lines.specs.Replies.{IsTraffic};

use fw_async::Head;
use fw_async_glance::Glance;
use fw_log_requests::{Answer, Asked};
use fw_trace_requests::{Carried, Reply, asked};
use fw_words::Swap;

/// What a packet of a usual kind is to a trace.
#[derive(Clone, Copy)]
pub enum Traffic {
    /// A request, and what it carries.
    Request(Asked, Carried),
    /// A response.
    Response(Reply),
    /// It neither asks nor answers.
    Silent,
    /// Of another packet nothing is said.
    Other,
}

// What is kept of a compare_swap of a quadlet.
#[inline(always)]
fn asked_swap(head: &Head, offset: u64, argument: u32, new: u32) -> Asked
    ensures { result ≡ asked head.now LockResponse offset (quadlet_swap 2 (swap_bytes (record { argument = argument; new = new }))) }
{
    asked(head, Answer::Lock, offset, Some(Swap { argument, new }))
}

// The quadlet that the response to one brings.
#[inline(always)]
fn old_word(old: u32) -> Option<u32>
    ensures { result ≡ quadlet_of (to_be_bytes w32 old) }
{
    Some(old)
}

// A response of this kind, which brings this word.
#[inline(always)]
fn response(head: Head, kind: Answer, rcode: u8, word: Option<u32>) -> Traffic
    ensures { result ≡ Traffic.Response (record { head = head; kind = kind; rcode = rcode; word = word }) }
{
    Traffic::Response(Reply {
        head,
        kind,
        rcode,
        word,
    })
}

impl Traffic {
    // What the packet is that a glance tells.
    #[inline(always)]
    pub(crate) fn of(glance: Glance) -> Traffic
        ensures { (p : APacket) → IsGlance glance p → IsTraffic result p }
    {
        match glance {
            Glance::Read { head, offset } => Traffic::Request(
                asked(&head, Answer::ReadQuadlet, offset, None),
                Carried::Nothing,
            ),
            Glance::Swap { head, offset, swap } => Traffic::Request(
                asked_swap(&head, offset, swap.argument, swap.new),
                Carried::Nothing,
            ),
            Glance::Write {
                head,
                offset,
                value,
            } => Traffic::Request(
                asked(&head, Answer::Write, offset, None),
                Carried::Quadlet(value),
            ),
            Glance::WritePair {
                head,
                offset,
                first,
                second,
            } => Traffic::Request(
                asked(&head, Answer::Write, offset, None),
                Carried::Pair(first, second),
            ),
            Glance::ReadReply { head, rcode, value } => {
                response(head, Answer::ReadQuadlet, rcode, Some(value))
            }
            Glance::SwapReply { head, rcode, old } => {
                response(head, Answer::Lock, rcode, old_word(old))
            }
            Glance::WriteReply { head, rcode } => response(head, Answer::Write, rcode, None),
            Glance::CycleStart { .. } => Traffic::Silent,
            Glance::Other => Traffic::Other,
        }
    }
}
