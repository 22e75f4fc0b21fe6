//! The packets that the output plugs which talk send in a cycle (IEC 61883-1, 6).

ghost use Rattle.std.specs.Prelude.{◌≡◌, ◌≤◌, ◌<◌, ◌+◌, Some, None, length, IfSome};
ghost use Rattle.fw_node.specs.Streams.{talking_on};
ghost use Rattle.fw_devices.specs.Network.{node_at};
ghost use Rattle.fw_devices.specs.Streams.{AreTalkers};
ghost use Rattle.fw_tape.specs.Desks.{AnyBlock};
ghost use Rattle.fw_bus_engine.specs.Cycling.{HadSent, HearsTo, PutsIntoRoom, SendsHeard, unheard};
ghost use Rattle.fw_bus_state.specs.Stands.{IsReady};

use fw_bus_state::{Machine, Recording, Streams, hear_block};
use fw_devices::Talkers;
use fw_log_entry::CycleRoom;
use fw_tape::Desk;

/// Puts the packet of the cycle of a device's output plug, which talks on this channel, into the room: with a block if its tape
/// gives one, else an empty one. `before` has the counts before the cycle.
#[inline(always)]
fn put_packet<F: Fn(u16, u32, u16) -> [u8; 480], H: Fn(u32, u8) -> u8>(
    machine: &Machine,
    device: u8,
    channel: u8,
    before: &Streams,
    desk: &Desk<F, H>,
    room: &mut CycleRoom,
    heard: &mut Option<Recording>,
)
    requires ready { IsReady machine.now }
    requires desk { AnyBlock (F.pre desk.now.blocks) }
    requires declared { device < length machine.now.devices.nodes }
    requires talks { talking_on (node_at machine.now.devices.nodes device) ≡ Some channel }
    requires room { length room.old + 508 ≤ 102632 }
    ensures puts { PutsIntoRoom (HadSent before.now) (record { blocks = F.post desk.now.blocks; vendor = H.post desk.now.vendor }) (SendsHeard device channel heard.old heard.new) machine.now room.old room.new }
    ensures size { length room.new ≤ length room.old + 508 }
    ensures same { unheard heard.new ≡ unheard heard.old }
{
    let mut talker = before.talker(device, channel);
    let own = machine.number(device);
    let fifty = machine.devices.fifty(device);
    // The packet is made in each arm, so that the block's bytes go into the room as they come.
    match machine.devices.block_now(device) {
        Some(place) => {
            let bytes = desk.block(place.tape, place.frame, place.block);
            let packet = talker.cycle(own, fifty, Some(&bytes));
            room.put(machine.devices.epoch(), machine.cycle, &packet);
            hear_block(heard, channel, &bytes);
        }
        None => {
            let packet = talker.cycle(own, fifty, None);
            room.put(machine.devices.epoch(), machine.cycle, &packet);
        }
    }
}

/// Puts the packets of the output plugs that talk into the room, in order of channel.
// Inlined at each call, if it is known whether a deck records.
#[inline(always)]
pub(crate) fn put_packets<F: Fn(u16, u32, u16) -> [u8; 480], H: Fn(u32, u8) -> u8>(
    machine: &Machine,
    talkers: &Talkers,
    before: &Streams,
    desk: &Desk<F, H>,
    room: &mut CycleRoom,
    heard: &mut Option<Recording>,
)
    requires ready { IsReady machine.now }
    requires desk { AnyBlock (F.pre desk.now.blocks) }
    requires talkers { AreTalkers (length machine.now.devices.nodes) machine.now.devices.nodes talkers.now }
    requires nothing { IfSome heard.old (λ r. r.block ≡ None) }
    requires room { length room.old + 32512 ≤ 102632 }
    ensures puts { PutsIntoRoom (HadSent before.now) (record { blocks = F.post desk.now.blocks; vendor = H.post desk.now.vendor }) (HearsTo 64 heard.old heard.new) machine.now room.old room.new }
    ensures same { unheard heard.new ≡ unheard heard.old }
{
    for channel in 0..talkers.end() {
        if let Some(device) = talkers.get(channel) {
            put_packet(machine, device, channel, before, desk, room, heard);
        }
    }
}

/// The same, if a deck records.
// Not inlined: the block that is heard then has its place in memory, and no other packet moves it.
#[inline(never)]
pub(crate) fn put_heard<F: Fn(u16, u32, u16) -> [u8; 480], H: Fn(u32, u8) -> u8>(
    machine: &Machine,
    talkers: &Talkers,
    before: &Streams,
    desk: &Desk<F, H>,
    room: &mut CycleRoom,
    heard: &mut Option<Recording>,
)
    requires ready { IsReady machine.now }
    requires desk { AnyBlock (F.pre desk.now.blocks) }
    requires talkers { AreTalkers (length machine.now.devices.nodes) machine.now.devices.nodes talkers.now }
    requires nothing { IfSome heard.old (λ r. r.block ≡ None) }
    requires room { length room.old + 32512 ≤ 102632 }
    ensures puts { PutsIntoRoom (HadSent before.now) (record { blocks = F.post desk.now.blocks; vendor = H.post desk.now.vendor }) (HearsTo 64 heard.old heard.new) machine.now room.old room.new }
    ensures same { unheard heard.new ≡ unheard heard.old }
{
    put_packets(machine, talkers, before, desk, room, heard);
}
