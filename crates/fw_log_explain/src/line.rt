//! What an entry records, in words.

ghost use Rattle.std.specs.Prelude.{◌≡◌, ◌++◌, OnOk};
ghost use Rattle.fw_log_explain.specs.Lines.{what_text};

use crate::events::{put_event, put_iso, put_outcome, put_shown};
use crate::packet::put_packet;
use crate::reset::put_reset;
use fw_log_entry::Entry;
use fw_log_names::{Pairs, put_word};
use fw_log_requests::Requests;
use std::alloc::AllocError;

/// Appends what an entry records, by the outstanding requests before it: its line between the cycle and the line feed. An error says
/// that memory ran out, and comes for nothing else.
#[tactic(auto, unfolding(crate::specs::Lines::what_text))]
pub fn put_what(
    text: &mut Vec<u8>,
    pairs: &Pairs,
    requests: &Requests,
    what: &Entry,
) -> Result<(), AllocError>
    ensures { OnOk result (text.new.items ≡ text.old.items ++ what_text requests.now what.now) }
{
    match what {
        Entry::Reset(reset) => put_reset(text, reset.get()),
        Entry::Async(packet) => put_packet(text, pairs, requests, packet),
        Entry::Iso(packet) => put_iso(text, pairs, packet),
        Entry::Event(event) => put_event(text, event),
        Entry::Outcome(outcome) => put_outcome(text, pairs, outcome),
        Entry::Shown(shown) => put_shown(text, shown),
        Entry::End => put_word(text, "end"),
    }
}
