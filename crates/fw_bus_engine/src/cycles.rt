//! Cycles that are written: the cycle start of the root (IEEE 1394-1995, cycle start packet), and the packets of the output plugs that talk.
//! They are put together in a room, and several are written with one write.

ghost use Rattle.std.specs.Prelude.{◌≡◌, ◌≤◌, ◌<◌, ◌+◌, ◌^◌, [], length, true, IsTrue, OnOk};
ghost use Rattle.std.specs.Option.{option_map};
ghost use Rattle.fw_async.specs.Async.{Fits as PacketFits};
ghost use Rattle.fw_log_entry.specs.declared.entry.ResetEntry.{ResetEntry};
ghost use Rattle.fw_devices.specs.Streams.{AreTalkers};
ghost use Rattle.fw_order.specs.declared.limits.TheConstants.{MOST_WRITTEN_CYCLES};
ghost use Rattle.fw_model_run.specs.Carrying.{Carries};
ghost use Rattle.fw_model_run.specs.Good.{IsGood};
ghost use Rattle.fw_model_run.specs.State.{State};
ghost use Rattle.fw_model_run.specs.Streams.{cycle_start};
ghost use Rattle.fw_order.specs.declared.order.Order.TheVariants.{Cycles};
ghost use Rattle.fw_tape.specs.Desks.{AnyBlock};
ghost use Rattle.fw_bus_engine.specs.Cycling.{Comes, WritesCycle};
ghost use Rattle.fw_bus_engine.specs.Filling.{Fills, FillsBy, Passes};
ghost use Rattle.fw_bus_engine.specs.Framing.{PerformedWithDesk};
ghost use Rattle.fw_bus_engine.specs.Playing.{IsCycleStreamsOf, ahead};
ghost use Rattle.fw_bus_state.specs.Faults.{CountsFaults};
ghost use Rattle.fw_bus_state.specs.Giving.{sides_of};
ghost use Rattle.fw_bus_state.specs.Stands.{IsReady, StandsFor};
ghost use Rattle.fw_bus_state.specs.Streaming.{AreStillFrom};

use crate::cycle_streams::CycleStreams;
use crate::playing::put_plain;
use crate::second::{pass_one, pass_second};
use crate::streams::{put_heard, put_packets};
use fw_async::{Head, Packet, node_id};
use fw_bus_state::entries::second_over;
use fw_bus_state::{Machine, WriteBuffers, keep, put_entry, recording_on};
use fw_csr::offset::CYCLE_TIME;
use fw_devices::Talkers;
use fw_log_entry::{CycleRoom, Entry};
use fw_node::cycle_time;
use fw_outside::{Failed, Sink};
use fw_tape::Desk;

/// The node ID of a broadcast.
const BROADCAST: u16 = 0xFFFF;

/// The cycle start of a cycle, a broadcast of the root to CYCLE_TIME (IEEE 1394-1995, 8.3.2.3.1).
pub(crate) fn cycle_start(root: u8, cycle: u64) -> Packet<'static>
    requires { root < 63 }
    ensures value { result ≡ cycle_start root cycle }
    ensures fits { PacketFits result }
{
    Packet::CycleStart {
        head: Head {
            destination: BROADCAST,
            tl: 0,
            rt: 0,
            pri: 15,
            source: node_id(root),
        },
        offset: CYCLE_TIME,
        time: cycle_time(cycle),
    }
}

/// The node that is root. None before the first device.
fn root(machine: &Machine) -> Option<u8>
    ensures { (s : State) → IsGood s → StandsFor machine.now s → result ≡ option_map (λ (e : ResetEntry). e.root) s.account.latest }
{
    if machine.devices.count() == 0 {
        return None;
    }
    Some(machine.devices.latest().get().root)
}

/// The next cycle comes: if the second of the latest bus reset is over at it, that is put into the room first. `talkers` are those
/// that talk before it, and then after it; so with `end`, from which on all devices are still.
fn next_cycle(machine: &mut Machine, talkers: &mut Talkers, end: &mut u8, room: &mut WriteBuffers)
    requires ready { IsReady machine.old }
    requires few { machine.old.cycle + 1 ≤ 2 ^ 52 }
    requires talkers { AreTalkers (length machine.old.devices.nodes) machine.old.devices.nodes talkers.old }
    requires still { AreStillFrom end.old machine.old.devices.nodes machine.old.streams }
    requires room { length room.old.cycle + 2292 ≤ 102632 }
    ensures talkers { AreTalkers (length machine.new.devices.nodes) machine.new.devices.nodes talkers.new }
    ensures still { AreStillFrom end.new machine.new.devices.nodes machine.new.streams }
    ensures fills { Fills Comes machine.old machine.new room.old.cycle room.new.cycle }
    ensures size { length room.new.cycle ≤ length room.old.cycle + 2292 }
{
    if machine.reclaiming && machine.directory.over_at == machine.cycle + 1 {
        pass_second(machine);
        put_entry(machine, second_over(), room);
        *talkers = machine.devices.talkers();
        *end = machine.streams.end(&machine.devices);
    } else {
        pass_one(machine, *end);
    }
}

/// The next cycle comes and is put into the room. Before the first device it only comes. `talkers` and `end` are as in `next_cycle`.
// Inlined, if the room is at hand: else blocks go into it by copies.
#[inline(always)]
fn put_cycle<F: Fn(u16, u32, u16) -> [u8; 480], H: Fn(u32, u8) -> u8>(
    machine: &mut Machine,
    talkers: &mut Talkers,
    end: &mut u8,
    desk: &Desk<F, H>,
    room: &mut WriteBuffers,
)
    requires ready { IsReady machine.old }
    requires desk { AnyBlock (F.pre desk.now.blocks) }
    requires few { machine.old.cycle + 1 ≤ 2 ^ 52 }
    requires written { 0 < length machine.old.devices.nodes → machine.old.written < MOST_WRITTEN_CYCLES }
    requires talkers { AreTalkers (length machine.old.devices.nodes) machine.old.devices.nodes talkers.old }
    requires still { AreStillFrom end.old machine.old.devices.nodes machine.old.streams }
    requires room { length room.old.cycle + 37096 ≤ 102632 }
    ensures talkers { AreTalkers (length machine.new.devices.nodes) machine.new.devices.nodes talkers.new }
    ensures still { AreStillFrom end.new machine.new.devices.nodes machine.new.streams }
    ensures fills { FillsBy (record { blocks = F.post desk.now.blocks; vendor = H.post desk.now.vendor }) WritesCycle machine.old machine.new room.old.cycle room.new.cycle }
{
    let before = machine.streams;
    next_cycle(machine, talkers, end, room);
    let Some(root) = root(machine) else {
        return;
    };
    machine.written += 1;
    let start = cycle_start(root, machine.cycle);
    put_entry(machine, Entry::Async(start), room);
    // A block is kept for the reel only if a deck records.
    let Some(recording) = recording_on(machine) else {
        return put_packets(machine, talkers, &before, desk, &mut room.cycle, &mut None);
    };
    let mut heard = Some(recording);
    put_heard(machine, talkers, &before, desk, &mut room.cycle, &mut heard);
    keep(machine, &heard);
}

/// Writes what the room holds, with one write, and empties the room.
fn write_out<K: Sink>(room: &mut CycleRoom, sink: &mut K) -> Result<(), Failed>
    ensures passes { Passes (K.held sink.old) (K.held sink.new) result room.old room.new }
    ensures empty { room.new ≡ [] }
    ensures faults { CountsFaults (K.faults sink.old) (K.faults sink.new) result }
{
    let entries = room.as_slice();
    if entries.is_empty() {
        return Ok(());
    }
    let result = sink.write(entries);
    room.clear();
    result
}

/// Writes what the room holds, if the entries of a cycle more do not fit.
fn make_room<K: Sink>(room: &mut CycleRoom, sink: &mut K) -> Result<(), Failed>
    ensures passes { Passes (K.held sink.old) (K.held sink.new) result room.old room.new }
    ensures room { OnOk result (length room.new + 37096 ≤ 102632) }
    ensures faults { CountsFaults (K.faults sink.old) (K.faults sink.new) result }
{
    if room.has_room() {
        return Ok(());
    }
    write_out(room, sink)
}

/// Whether there is a device, and the second of no bus reset is over at the next cycle.
fn is_plain(machine: &Machine) -> bool
    requires { machine.now.cycle < 2 ^ 52 }
    ensures some { IsTrue result → 0 < length machine.now.devices.names }
    ensures apart { IsTrue result → machine.now.reclaiming ≡ true → machine.now.cycle + 1 ≡ machine.now.directory.over_at → ⊥ }
{
    if machine.devices.count() == 0 {
        return false;
    }
    !(machine.reclaiming && machine.directory.over_at == machine.cycle + 1)
}

/// The next cycle comes and is put into the room, whatever comes with it: also the end of a second.
// Not inlined: hardly any cycle is one of these, and a band is long.
#[inline(never)]
fn put_any<F: Fn(u16, u32, u16) -> [u8; 480], H: Fn(u32, u8) -> u8>(
    machine: &mut Machine,
    cycle_streams: &mut CycleStreams,
    desk: &Desk<F, H>,
    room: &mut WriteBuffers,
)
    requires ready { IsReady (ahead cycle_streams.old.gone machine.old) }
    requires desk { AnyBlock (F.pre desk.now.blocks) }
    requires few { machine.old.cycle + 1 ≤ 2 ^ 52 }
    requires written { 0 < length (ahead cycle_streams.old.gone machine.old).devices.nodes → machine.old.written < MOST_WRITTEN_CYCLES }
    requires room { length room.old.cycle + 37096 ≤ 102632 }
    ensures cycle_streams { IsCycleStreamsOf (ahead cycle_streams.new.gone machine.new) cycle_streams.new }
    ensures gone { cycle_streams.new.gone ≤ machine.new.cycle }
    ensures fills { FillsBy (record { blocks = F.post desk.now.blocks; vendor = H.post desk.now.vendor }) WritesCycle (ahead cycle_streams.old.gone machine.old) (ahead cycle_streams.new.gone machine.new) room.old.cycle room.new.cycle }
{
    cycle_streams.settle(machine);
    let mut talkers = machine.devices.talkers();
    let mut end = machine.streams.end(&machine.devices);
    put_cycle(machine, &mut talkers, &mut end, desk, room);
    *cycle_streams = CycleStreams::of(machine);
}

/// The next cycle comes and is put into the room.
#[inline(always)]
fn put_next<F: Fn(u16, u32, u16) -> [u8; 480], H: Fn(u32, u8) -> u8>(
    machine: &mut Machine,
    cycle_streams: &mut CycleStreams,
    desk: &Desk<F, H>,
    room: &mut WriteBuffers,
)
    requires ready { IsReady (ahead cycle_streams.old.gone machine.old) }
    requires desk { AnyBlock (F.pre desk.now.blocks) }
    requires few { machine.old.cycle + 1 ≤ 2 ^ 52 }
    requires gone { cycle_streams.old.gone ≤ machine.old.cycle }
    requires written { 0 < length (ahead cycle_streams.old.gone machine.old).devices.nodes → machine.old.written < MOST_WRITTEN_CYCLES }
    requires cycle_streams { IsCycleStreamsOf (ahead cycle_streams.old.gone machine.old) cycle_streams.old }
    requires room { length room.old.cycle + 37096 ≤ 102632 }
    ensures cycle_streams { IsCycleStreamsOf (ahead cycle_streams.new.gone machine.new) cycle_streams.new }
    ensures gone { cycle_streams.new.gone ≤ machine.new.cycle }
    ensures fills { FillsBy (record { blocks = F.post desk.now.blocks; vendor = H.post desk.now.vendor }) WritesCycle (ahead cycle_streams.old.gone machine.old) (ahead cycle_streams.new.gone machine.new) room.old.cycle room.new.cycle }
{
    if is_plain(machine) {
        put_plain(machine, cycle_streams, desk, room);
    } else {
        put_any(machine, cycle_streams, desk, room);
    }
}

/// Cycles go by and are written, several with one write.
pub(crate) fn cycles<K: Sink, F: Fn(u16, u32, u16) -> [u8; 480], H: Fn(u32, u8) -> u8>(
    machine: &mut Machine,
    count: u32,
    desk: &Desk<F, H>,
    room: &mut WriteBuffers,
    sink: &mut K,
) -> Result<(), Failed>
    requires ready { IsReady machine.old }
    requires desk { AnyBlock (F.pre desk.now.blocks) }
    requires few { machine.old.cycle + count ≤ 2 ^ 52 }
    requires written { 0 < length machine.old.devices.nodes → machine.old.written + count ≤ MOST_WRITTEN_CYCLES }
    ensures does { PerformedWithDesk (record { blocks = F.post desk.now.blocks; vendor = H.post desk.now.vendor }) (λ s. Carries s (Cycles count))
        machine.old machine.new (sides_of K.held K.faults sink.old sink.new) result }
{
    let mut cycle_streams = CycleStreams::of(machine);
    room.cycle.clear();
    for i in 0..count {
        make_room(&mut room.cycle, sink)?;
        put_next(machine, &mut cycle_streams, desk, room);
    }
    cycle_streams.settle(machine);
    write_out(&mut room.cycle, sink)
}
