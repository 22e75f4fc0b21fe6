//! The bus reset that a body is, if it is known to be one.

ghost use Rattle.std.specs.Prelude.{◌≡◌, ◌≤◌, List, length, take};
ghost use Rattle.fw_phy.specs.Phy.{Fits as PhyFits, spelling};
ghost use Rattle.fw_phy.specs.declared.packet.PhyPacket.{PhyPacket as APacket};
ghost use Rattle.fw_log_entry.specs.Log.{ResetFits, body};
ghost use Rattle.fw_log_entry.specs.declared.entry.Entry.TheVariants.{Reset};
ghost use Rattle.fw_log_entry.specs.declared.entry.ResetEntry.{ResetEntry as AReset};
ghost use Rattle.fw_log.specs.Bodies.{AreIds};
ghost use Rattle.fw_log_text.specs.Resets.{IsResetBody};

use fw_log::{count_of, read_fields};
use fw_log_entry::{NodeList, ResetEntry};
use fw_phy::{PhyPacket, SelfIds, read_phy};

/// Room for a reset.
pub(crate) fn no_reset() -> ResetEntry {
    ResetEntry {
        epoch: 0,
        root: 0,
        manager: None,
        initiator: 0,
        nodes: NodeList::new(),
        ids: SelfIds::new(),
    }
}

// The self-ID packet that the first eight bytes are.
fn packet_of(bytes: &[u8]) -> PhyPacket
    requires { (p : APacket) × PhyFits p × (take 8 bytes.now ≡ spelling p) }
    ensures { (p : APacket) → PhyFits p → take 8 bytes.now ≡ spelling p → result ≡ p }
{
    match read_phy(bytes) {
        Ok(packet) => packet,
        Err(_) => unreachable!(),
    }
}

// Puts the self-ID packets that the bytes are into a list.
fn read_ids(ids: &mut SelfIds, bytes: &[u8])
    requires { (all : List APacket) × AreIds all bytes.now × (length all ≤ 252) }
    ensures { (all : List APacket) → AreIds all bytes.now → ids.new ≡ all }
{
    *ids = SelfIds::new();
    for i in 0..bytes.len() / 8 {
        ids.push(packet_of(&bytes[8 * i..]));
    }
}

/// Puts the reset whose body these bytes are into room for one. No fault is looked for.
pub(crate) fn read_whole_reset(reset: &mut ResetEntry, bytes: &[u8])
    requires { IsResetBody bytes.now }
    ensures { (r : AReset) → ResetFits r → body (Reset r) ≡ bytes.now → reset.new ≡ r }
{
    let count = count_of(bytes);
    read_ids(&mut reset.ids, &bytes[8 + 4 * count..]);
    read_fields(reset, bytes);
}
