//! Parts of the text of a packet that have one length.

ghost use Rattle.std.specs.Prelude.{◌≡◌, ◌++◌, codes};
ghost use Rattle.fw_text.specs.Texts.{hex};
ghost use Rattle.fw_log_json_packets.specs.Values.{field, quoted};
ghost use Rattle.fw_log_json_packets.specs.Packets.{place_fields, quadlet_field};

use fw_log_names::Pairs;

/// The addressee under its key, and the key of the transaction label.
#[inline(always)]
#[tactic(auto, unfolding(crate::specs::Values::field, crate::specs::Values::quoted))]
pub fn addressee(pairs: &Pairs, id: u16) -> [u8; 26]
    ensures { result ≡ field (codes ",\"dst_id\":") (quoted (hex 4 id)) ++ codes ",\"tlabel\":" }
{
    let mut row = *b",\"dst_id\":\"....\",\"tlabel\":";
    row[11..15].copy_from_slice(&pairs.four(id));
    row
}

/// The usual retry code and priority, and the sender under its key.
#[inline(always)]
#[tactic(auto, unfolding(crate::specs::Values::field, crate::specs::Values::quoted))]
pub fn usual_sender(pairs: &Pairs, id: u16) -> [u8; 62]
    ensures { result ≡ codes ",\"retry\":1,\"retry_name\":\"retry_x\",\"priority\":0" ++ field (codes ",\"src_id\":") (quoted (hex 4 id)) }
{
    let mut row = *b",\"retry\":1,\"retry_name\":\"retry_x\",\"priority\":0,\"src_id\":\"....\"";
    row[57..61].copy_from_slice(&pairs.four(id));
    row
}

/// An offset under its key.
#[inline(always)]
#[tactic(auto, unfolding(crate::specs::Values::field, crate::specs::Values::quoted))]
pub fn place(pairs: &Pairs, offset: u64) -> [u8; 24]
    ensures { result ≡ place_fields offset }
{
    let mut row = *b",\"offset\":\"............\"";
    row[11..23].copy_from_slice(&pairs.twelve(offset));
    row
}

/// A quadlet under its key.
#[inline(always)]
#[tactic(auto, unfolding(crate::specs::Values::field, crate::specs::Values::quoted))]
pub fn quadlet(pairs: &Pairs, value: u32) -> [u8; 18]
    ensures { result ≡ quadlet_field value }
{
    let mut row = *b",\"data\":\"........\"";
    row[9..17].copy_from_slice(&pairs.eight(value));
    row
}
