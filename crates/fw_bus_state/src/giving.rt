//! Entries of a machine's cycle, which go to a sink or into a room.

ghost use Rattle.std.specs.Prelude.{◌≡◌, ◌≤◌, ◌+◌, length};
ghost use Rattle.fw_async.specs.Async.{Fits as PacketFits};
ghost use Rattle.fw_async.specs.Reader.{IsPacket, Spells};
ghost use Rattle.fw_async.specs.declared.packet.Packet.{Packet};
ghost use Rattle.fw_log_entry.specs.declared.entry.Entry.TheVariants.{Async};
ghost use Rattle.fw_log_entry.specs.Log.{Fits, epoch_after};
ghost use Rattle.fw_bus_state.specs.Giving.{Gives, in_room, never_fails, sides_of};
ghost use Rattle.fw_model_run.specs.Giving.{at_cycle};

use crate::machine::Machine;
use crate::room::WriteBuffers;
use fw_async::PacketRoom;
use fw_log_entry::{Entry, Timed, Version, epoch_after, write_async, write_entry};
use fw_outside::{Failed, Sink};

/// An entry with the cycle of the machine, and the epoch of the latest bus reset up to and including it.
#[inline(always)]
fn timed<'a>(machine: &Machine, what: Entry<'a>) -> (u32, Timed<'a>)
    ensures epoch { result.0 ≡ epoch_after machine.now.devices.epoch what.entry }
    ensures latest { result.0 ≡ epoch_after result.0 what.entry }
    ensures entry { result.1 ≡ at_cycle machine.now.cycle what.entry }
{
    let epoch = epoch_after(machine.devices.epoch(), &what);
    let cycle = machine.cycle;
    (epoch, Timed { cycle, what })
}

/// Writes an entry of this cycle, with the epoch of the latest bus reset.
pub fn emit<K: Sink>(
    machine: &Machine,
    what: Entry<'_>,
    room: &mut WriteBuffers,
    sink: &mut K,
) -> Result<(), Failed>
    requires { Fits what }
    ensures { Gives machine.now what.entry (sides_of K.held K.faults sink.old sink.new) result }
{
    let (epoch, entry) = timed(machine, what);
    write_entry(Version::Two, epoch, &entry, &mut room.entry, sink)
}

/// Puts an entry of this cycle into the room of cycles, after those that it holds.
pub fn put_entry(machine: &Machine, what: Entry<'_>, room: &mut WriteBuffers)
    requires fits { Fits what }
    requires room { length room.old.cycle + 2292 ≤ 102632 }
    ensures gives { Gives machine.now what.entry (in_room room.old.cycle room.new.cycle) never_fails }
    ensures size { length room.new.cycle ≤ length room.old.cycle + 2292 }
{
    let (epoch, entry) = timed(machine, what);
    room.cycle.put_entry(epoch, &entry, &mut room.entry);
}

/// Writes the entry of a packet of this cycle, which is in the room.
#[inline(always)]
pub fn emit_packet<K: Sink>(
    machine: &Machine,
    packet: &mut PacketRoom,
    sink: &mut K,
) -> Result<(), Failed>
    requires { IsPacket packet.old }
    ensures { (p : Packet) → Spells p packet.old → Gives machine.now (Async p) (sides_of K.held K.faults sink.old sink.new) result }
{
    write_async(machine.devices.epoch(), machine.cycle, packet, sink)
}

/// Writes the entry of a packet of this cycle, which is put together in the room.
pub fn give_async<K: Sink>(
    machine: &Machine,
    packet: &fw_async::Packet,
    room: &mut PacketRoom,
    sink: &mut K,
) -> Result<(), Failed>
    requires { PacketFits packet.now }
    ensures { Gives machine.now (Async packet.now) (sides_of K.held K.faults sink.old sink.new) result }
{
    room.put(packet);
    emit_packet(machine, room, sink)
}
