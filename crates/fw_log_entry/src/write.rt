//! A log's header and its entries, as bytes.

ghost use Rattle.std.specs.Prelude.{◌≡◌, ◌≤◌, ◌/◌, [], ◌++◌, length, OnOk};
ghost use Rattle.fw_outside.specs.Outside.{HasCause, Writes};
ghost use Rattle.fw_async.specs.Reader.{Spells, IsPacket};
ghost use Rattle.fw_async.specs.declared.packet.Packet.{Packet};
ghost use Rattle.fw_log_entry.specs.declared.entry.Entry.TheVariants.{Async};
ghost use Rattle.fw_log_entry.specs.Log.{header_bytes, entry_head, entry_bytes, epoch_after, kind_of, body, Fits, TimedFits};
ghost use Rattle.fw_log_entry.specs.declared.version.Version.TheVariants.{One, Two};

use crate::codes::{LOG_MAGIC, kind};
use crate::entry_room::EntryBytes;
use crate::write_body::{body_quadlets, put_body};
use crate::{Entry, EntryRoom, Timed, Version};
use fw_async::PacketRoom;
use fw_outside::{Failed, Sink};
use fw_words::{Bytes, Quadlet, put_quadlet};

/// How many bytes the head of an entry of version 2 has.
pub(crate) const HEAD: usize = 16;

/// How many bytes of a packet stand after such a head in one row of a sink.
const SHORT: usize = 32;

/// Writes what each log of a version begins with, in one write. An error says that the sink failed; a prefix of the header may
/// have been written then.
pub fn write_header<K: Sink>(version: Version, sink: &mut K) -> Result<(), Failed>
    ensures bytes { Writes (K.held sink.old) (K.held sink.new) result (header_bytes version) }
    ensures cause { HasCause (K.faults sink.old) (K.faults sink.new) result }
    ensures same { OnOk result (K.faults sink.new ≡ K.faults sink.old) }
{
    let mut header: Bytes<16> = Bytes::new();
    header.append(&put_quadlet(Quadlet(LOG_MAGIC)));
    header.append(&put_quadlet(Quadlet(version.number())));
    header.append(&put_quadlet(Quadlet(0)));
    header.append(&put_quadlet(Quadlet(0)));
    sink.write(header.as_slice())
}

// The number of the entry's kind.
fn kind_of(what: &Entry) -> u8
    ensures { result ≡ kind_of what.now }
{
    match what {
        Entry::Reset(_) => kind::RESET,
        Entry::Async(_) => kind::ASYNC,
        Entry::Iso(_) => kind::ISO,
        Entry::Event(_) => kind::EVENT,
        Entry::Outcome(_) => kind::OUTCOME,
        Entry::Shown(_) => kind::SHOWN,
        Entry::End => kind::END,
    }
}

/// The head of an entry in version 1: its kind, the length of its body in quadlets and its cycle.
pub fn short_head(kind: u8, quadlets: u16, cycle: u64) -> [u8; 12]
    ensures { result ≡ entry_head One 0 kind quadlets cycle }
{
    let mut head = [kind, 0, 0, 0, 0, 0, 0, 0, 0, 0, 0, 0];
    head[2..4].copy_from_slice(&quadlets.to_be_bytes());
    head[4..].copy_from_slice(&cycle.to_be_bytes());
    head
}

/// The head of an entry in version 2, with the epoch of the latest bus reset up to and including the entry.
pub fn long_head(kind: u8, quadlets: u16, epoch: u32, cycle: u64) -> [u8; 16]
    ensures { result ≡ entry_head Two epoch kind quadlets cycle }
{
    let mut head = [kind, 0, 0, 0, 0, 0, 0, 0, 0, 0, 0, 0, 0, 0, 0, 0];
    head[2..4].copy_from_slice(&quadlets.to_be_bytes());
    head[4..8].copy_from_slice(&epoch.to_be_bytes());
    head[8..].copy_from_slice(&cycle.to_be_bytes());
    head
}

// The bytes of a head.
fn bytes_of(head: &[u8]) -> Bytes<16>
    requires { length head.now ≤ 16 }
    ensures { result ≡ head.now }
{
    let mut bytes = Bytes::new();
    bytes.append(head);
    bytes
}

/// What stands before the body of an entry, if this is the epoch of the latest bus reset up to and including it.
pub fn head_of(version: Version, epoch: u32, t: &Timed) -> Bytes<16>
    requires { Fits t.now.what }
    ensures { result ++ body t.now.what ≡ entry_bytes version epoch t.now }
{
    let kind = kind_of(&t.what);
    let quadlets = body_quadlets(&t.what);
    match version {
        Version::One => bytes_of(&short_head(kind, quadlets, t.cycle)),
        Version::Two => bytes_of(&long_head(kind, quadlets, epoch, t.cycle)),
    }
}

// An entry's head, after no bytes.
fn put_head(version: Version, epoch: u32, kind: u8, quadlets: u16, cycle: u64, out: &mut EntryBytes)
    requires { out.old ≡ [] }
    ensures { out.new ≡ entry_head version epoch kind quadlets cycle }
{
    match version {
        Version::One => out.append(&short_head(kind, quadlets, cycle)),
        Version::Two => out.append(&long_head(kind, quadlets, epoch, cycle)),
    }
}

// An entry, in place of what was there.
pub(crate) fn put_entry(version: Version, epoch: u32, t: &Timed, out: &mut EntryBytes)
    requires { TimedFits t.now }
    ensures { out.new ≡ entry_bytes version epoch t.now }
{
    out.clear();
    put_head(
        version,
        epoch,
        kind_of(&t.what),
        body_quadlets(&t.what),
        t.cycle,
        out,
    );
    put_body(&t.what, out);
}

/// Appends an entry, in one write, if this is the epoch of the latest bus reset up to and including it; version 1 does not
/// write it. An error says that the sink failed; a prefix of the entry may have been written
/// then. The room is used for it, whatever an earlier entry left there.
pub fn write_entry<K: Sink>(
    version: Version,
    epoch: u32,
    t: &Timed,
    room: &mut EntryRoom,
    sink: &mut K,
) -> Result<(), Failed>
    requires fits { TimedFits t.now }
    requires latest { epoch ≡ epoch_after epoch t.now.what }
    ensures bytes { Writes (K.held sink.old) (K.held sink.new) result (entry_bytes version epoch t.now) }
    ensures cause { HasCause (K.faults sink.old) (K.faults sink.new) result }
    ensures same { OnOk result (K.faults sink.new ≡ K.faults sink.old) }
{
    put_entry(version, epoch, t, &mut room.bytes);
    room.bytes.write_to(sink)
}

/// Appends the entry of version 2 of an asynchronous packet, in one write, after whose head the packet stands in its room, so that no byte of
/// it is copied. An error says that the sink failed; a prefix of the entry may have been written then. What the room has then does
/// not matter.
#[inline(always)]
pub fn write_async<K: Sink>(
    epoch: u32,
    cycle: u64,
    packet: &mut PacketRoom,
    sink: &mut K,
) -> Result<(), Failed>
    requires { IsPacket packet.old }
    ensures bytes { (p : Packet) → Spells p packet.old → Writes (K.held sink.old) (K.held sink.new) result (entry_bytes Two epoch (record { cycle = cycle; what = Async p })) }
    ensures cause { HasCause (K.faults sink.old) (K.faults sink.new) result }
    ensures same { OnOk result (K.faults sink.new ≡ K.faults sink.old) }
{
    let count = packet.as_slice().len();
    let head = long_head(kind::ASYNC, (count / 4) as u16, epoch, cycle);
    if count <= SHORT {
        return sink.write_prefix(packet.row_following(head), HEAD + count);
    }
    sink.write(packet.following_bytes(head))
}

/// The bytes of the body of an entry, in the room.
pub fn body_of<'a>(what: &Entry, room: &'a mut EntryRoom) -> &'a [u8]
    requires { Fits what.now }
    ensures { result.now ≡ body what.now }
{
    room.bytes.clear();
    put_body(what, &mut room.bytes);
    room.bytes.as_slice()
}
