//! The names of packets.

ghost use Rattle.std.specs.Prelude.{◌≡◌, ◌++◌, codes};
ghost use Rattle.fw_async.specs.declared.packet.Packet.{Packet as APacket};
ghost use Rattle.fw_log_names.specs.Names.{tcode};
ghost use Rattle.fw_log_text.specs.Names.{packet_name};

use crate::rows::Row;
use fw_async::Packet;

// The name of a packet's transaction code.
pub(crate) fn packet_name(p: &Packet) -> &'static str
    ensures { result.now ≡ packet_name p.now }
{
    match p {
        Packet::WriteQuadlet { .. } => "write-quadlet",
        Packet::WriteBlock { .. } => "write-block",
        Packet::WriteReply { .. } => "write-reply",
        Packet::ReadQuadlet { .. } => "read-quadlet",
        Packet::ReadBlock { .. } => "read-block",
        Packet::ReadQuadletReply { .. } => "read-quadlet-reply",
        Packet::ReadBlockReply { .. } => "read-block-reply",
        Packet::CycleStart { .. } => "cycle-start",
        Packet::Lock { .. } => "lock",
        Packet::LockReply { .. } => "lock-reply",
    }
}

// What the line of a packet of this transaction code begins with, after its cycle.
pub(crate) fn word_by_code(code: u32) -> Row<'static>
    ensures { (p : APacket) → code ≡ tcode p → result ≡ codes "async " ++ packet_name p }
{
    match code {
        0 => Row::new(b"async write-quadlet     ", 19),
        1 => Row::new(b"async write-block       ", 17),
        2 => Row::new(b"async write-reply       ", 17),
        4 => Row::new(b"async read-quadlet      ", 18),
        5 => Row::new(b"async read-block        ", 16),
        6 => Row::new(b"async read-quadlet-reply", 24),
        7 => Row::new(b"async read-block-reply  ", 22),
        8 => Row::new(b"async cycle-start       ", 17),
        9 => Row::new(b"async lock              ", 10),
        _ => Row::new(b"async lock-reply        ", 16),
    }
}
