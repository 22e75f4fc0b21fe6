//! The head of an asynchronous packet.

ghost use Rattle.std.specs.Prelude.{◌≡◌, ◌++◌, IsTrue, OnOk, codes, decimal};
ghost use Rattle.fw_log_names.specs.Names.{retry_name};
ghost use Rattle.fw_text.specs.Texts.{hex};
ghost use Rattle.fw_log_json_packets.specs.Values.{field, quoted, code};
ghost use Rattle.fw_log_json_packets.specs.Packets.{head_fields};

use crate::packet::put_retry;
use crate::values::{put_count, put_text};
use fw_async::Head;
use fw_log_json_packets::{addressee, usual_sender};
use fw_log_names::{Pairs, put_number};
use std::alloc::AllocError;

/// The retry code retry_X (IEEE 1394-1995, retry codes).
const RETRY_X: u8 = 1;

// The sender under its key.
#[inline(always)]
#[tactic(auto, unfolding(fw_log_json_packets::specs::Values::field, fw_log_json_packets::specs::Values::quoted))]
fn sender(pairs: &Pairs, id: u16) -> [u8; 16]
    ensures { result ≡ field (codes ",\"src_id\":") (quoted (hex 4 id)) }
{
    let mut row = *b",\"src_id\":\"....\"";
    row[11..15].copy_from_slice(&pairs.four(id));
    row
}

// Whether the retry code and the priority are those of most packets.
#[inline(always)]
fn is_usual(rt: u8, pri: u8) -> bool
    ensures { IsTrue result → (rt ≡ 1) × (pri ≡ 0) }
{
    rt == RETRY_X && pri == 0
}

// Appends the retry code, the priority and the sender.
#[inline(always)]
fn put_sender(text: &mut Vec<u8>, pairs: &Pairs, h: &Head) -> Result<(), AllocError>
    ensures { OnOk result (text.new.items ≡ text.old.items ++ code (codes ",\"retry\":") h.now.rt (codes ",\"retry_name\":") (retry_name h.now.rt) ++ field (codes ",\"priority\":") (decimal h.now.pri) ++ field (codes ",\"src_id\":") (quoted (hex 4 h.now.source))) }
{
    if is_usual(h.rt, h.pri) {
        return put_text(text, &usual_sender(pairs, h.source));
    }
    put_retry(text, h.rt)?;
    put_count(text, r#","priority":"#, u64::from(h.pri))?;
    put_text(text, &sender(pairs, h.source))
}

// Appends the fields of a head.
pub(crate) fn put_head(text: &mut Vec<u8>, pairs: &Pairs, h: &Head) -> Result<(), AllocError>
    ensures { OnOk result (text.new.items ≡ text.old.items ++ head_fields h.now) }
{
    put_text(text, &addressee(pairs, h.destination))?;
    put_number(text, u64::from(h.tl))?;
    put_sender(text, pairs, h)
}
