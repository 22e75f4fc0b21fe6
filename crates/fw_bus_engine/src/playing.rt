//! A cycle in which the second of no bus reset is over: its cycle start, and the packets of those that talk.

ghost use Rattle.std.specs.Prelude.{◌≡◌, ◌≤◌, ◌<◌, ◌+◌, ◌^◌, Some, None, IfSome, length, true};
ghost use Rattle.fw_order.specs.declared.limits.TheConstants.{MOST_WRITTEN_CYCLES};
ghost use Rattle.fw_tape.specs.Desks.{AnyBlock};
ghost use Rattle.fw_tape.specs.Motion.{MayPass};
ghost use Rattle.fw_bus_engine.specs.Cycling.{HadSent, HearsTo, PutsIntoRoom, WritesCycle, unheard};
ghost use Rattle.fw_bus_engine.specs.Filling.{FillsBy};
ghost use Rattle.fw_bus_engine.specs.Playing.{AreTalkingPlugs, IsCycleStreamsOf, MayTakeTurn, PutsRecorded, Sends, TakesTurn, ahead};
ghost use Rattle.fw_bus_state.specs.Stands.{IsReady};

use crate::cycle_streams::{CycleStreams, RecordingDeck, TalkingPlug};
use crate::cycles::cycle_start;
use fw_bus_state::{Machine, Recording, WriteBuffers, hear_block, keep, put_entry};
use fw_log_entry::{CycleRoom, Entry};
use fw_tape::Desk;

impl TalkingPlug {
    /// Its next cycle comes, which has this number, and its packet is put into the room: with a block if its tape gives one, else an empty one.
    #[inline(always)]
    fn send<F: Fn(u16, u32, u16) -> [u8; 480], H: Fn(u32, u8) -> u8>(
        &mut self,
        channel: u8,
        epoch: u32,
        cycle: u64,
        desk: &Desk<F, H>,
        room: &mut CycleRoom,
        heard: &mut Option<Recording>,
    )
        requires desk { AnyBlock (F.pre desk.now.blocks) }
        requires tape { MayPass 1 self.old.tape }
        requires channel { self.old.talker.channel ≡ channel }
        requires low { channel < 64 }
        requires own { self.old.own < 64 }
        requires room { length room.old + 508 ≤ 102632 }
        ensures sends { Sends (F.post desk.now.blocks) channel self.old self.new epoch cycle room.old room.new heard.old heard.new }
        ensures size { length room.new ≤ length room.old + 508 }
    {
        self.tape.pass(1);
        let fifty = self.tape.fifty();
        // The packet is made in each arm, so that the block's bytes go into the room as they come.
        match self.tape.block_now() {
            Some(place) => {
                let bytes = desk.block(place.tape, place.frame, place.block);
                let packet = self.talker.cycle(self.own, fifty, Some(&bytes));
                room.put(epoch, cycle, &packet);
                hear_block(heard, channel, &bytes);
            }
            None => {
                let packet = self.talker.cycle(self.own, fifty, None);
                room.put(epoch, cycle, &packet);
            }
        }
    }
}

/// The next cycle of the output plug that talks on a channel, if one does.
#[inline(always)]
fn take_turn<F: Fn(u16, u32, u16) -> [u8; 480], H: Fn(u32, u8) -> u8>(
    talking_plug: &mut Option<TalkingPlug>,
    channel: u8,
    epoch: u32,
    cycle: u64,
    desk: &Desk<F, H>,
    room: &mut CycleRoom,
    heard: &mut Option<Recording>,
)
    requires desk { AnyBlock (F.pre desk.now.blocks) }
    requires may { MayTakeTurn channel talking_plug.old }
    requires low { channel < 64 }
    requires room { length room.old + 508 ≤ 102632 }
    ensures turn { TakesTurn (F.post desk.now.blocks) channel talking_plug.old talking_plug.new epoch cycle room.old room.new heard.old heard.new }
    ensures size { length room.new ≤ length room.old + 508 }
{
    if let Some(talking_plug) = talking_plug {
        talking_plug.send(channel, epoch, cycle, desk, room, heard);
    }
}

/// Puts the packets of the cycle that the machine has come to into the room, in order of channel. The players are `gone` cycles ahead of
/// the machine's devices before it, and one more after it.
// Inlined at each call, if it is known whether a deck records.
#[inline(always)]
fn put_talking_plugs<F: Fn(u16, u32, u16) -> [u8; 480], H: Fn(u32, u8) -> u8>(
    machine: &Machine,
    gone: u64,
    talking_plugs: &mut [Option<TalkingPlug>],
    desk: &Desk<F, H>,
    room: &mut CycleRoom,
    heard: &mut Option<Recording>,
)
    requires ready { IsReady (ahead (gone + 1) machine.now) }
    requires desk { AnyBlock (F.pre desk.now.blocks) }
    requires talking_plugs { AreTalkingPlugs (ahead gone machine.now).devices.nodes (ahead gone machine.now).streams talking_plugs.old }
    requires nothing { IfSome heard.old (λ r. r.block ≡ None) }
    requires room { length room.old + 32512 ≤ 102632 }
    ensures puts { PutsIntoRoom (HadSent (ahead gone machine.now).streams) (record { blocks = F.post desk.now.blocks; vendor = H.post desk.now.vendor }) (HearsTo 64 heard.old heard.new) (ahead (gone + 1) machine.now) room.old room.new }
    ensures same { unheard heard.new ≡ unheard heard.old }
    ensures talking_plugs { AreTalkingPlugs (ahead (gone + 1) machine.now).devices.nodes (ahead (gone + 1) machine.now).streams talking_plugs.new }
    ensures count { length talking_plugs.new ≡ length talking_plugs.old }
{
    let epoch = machine.devices.epoch();
    for channel in 0..talking_plugs.len() {
        take_turn(
            &mut talking_plugs[channel],
            channel as u8,
            epoch,
            machine.cycle,
            desk,
            room,
            heard,
        );
    }
}

/// The same, if a deck records: the block that it hears goes onto the reel.
// Not inlined: the block that is heard then has its place in memory, and no other packet moves it.
#[inline(never)]
fn put_recorded<F: Fn(u16, u32, u16) -> [u8; 480], H: Fn(u32, u8) -> u8>(
    machine: &mut Machine,
    gone: u64,
    talking_plugs: &mut [Option<TalkingPlug>],
    deck: RecordingDeck,
    desk: &Desk<F, H>,
    room: &mut CycleRoom,
)
    requires ready { IsReady (ahead (gone + 1) machine.old) }
    requires desk { AnyBlock (F.pre desk.now.blocks) }
    requires talking_plugs { AreTalkingPlugs (ahead gone machine.old).devices.nodes (ahead gone machine.old).streams talking_plugs.old }
    requires limit { deck.limit ≤ 4800 }
    requires room { length room.old + 32512 ≤ 102632 }
    ensures puts { PutsRecorded (record { blocks = F.post desk.now.blocks; vendor = H.post desk.now.vendor }) gone deck machine.old machine.new room.old room.new }
    ensures talking_plugs { AreTalkingPlugs (ahead (gone + 1) machine.old).devices.nodes (ahead (gone + 1) machine.old).streams talking_plugs.new }
    ensures count { length talking_plugs.new ≡ length talking_plugs.old }
{
    let mut heard = Some(Recording {
        channel: deck.channel,
        limit: deck.limit,
        block: None,
    });
    put_talking_plugs(machine, gone, talking_plugs, desk, room, &mut heard);
    keep(machine, &heard);
}

/// A cycle comes and is put into the room. There is a device, and the second of no bus reset is over at it.
#[inline(always)]
pub(crate) fn put_plain<F: Fn(u16, u32, u16) -> [u8; 480], H: Fn(u32, u8) -> u8>(
    machine: &mut Machine,
    cycle_streams: &mut CycleStreams,
    desk: &Desk<F, H>,
    room: &mut WriteBuffers,
)
    requires ready { IsReady (ahead cycle_streams.old.gone machine.old) }
    requires desk { AnyBlock (F.pre desk.now.blocks) }
    requires some { 0 < length machine.old.devices.names }
    requires apart { machine.old.reclaiming ≡ true → machine.old.cycle + 1 ≡ machine.old.directory.over_at → ⊥ }
    requires few { machine.old.cycle + 1 ≤ 2 ^ 52 }
    requires gone { cycle_streams.old.gone + 1 ≤ 2 ^ 52 }
    requires written { machine.old.written < MOST_WRITTEN_CYCLES }
    requires cycle_streams { IsCycleStreamsOf (ahead cycle_streams.old.gone machine.old) cycle_streams.old }
    requires room { length room.old.cycle + 37096 ≤ 102632 }
    ensures cycle_streams { IsCycleStreamsOf (ahead cycle_streams.new.gone machine.new) cycle_streams.new }
    ensures gone { cycle_streams.new.gone ≡ cycle_streams.old.gone + 1 }
    ensures cycle { machine.new.cycle ≡ machine.old.cycle + 1 }
    ensures fills { FillsBy (record { blocks = F.post desk.now.blocks; vendor = H.post desk.now.vendor }) WritesCycle (ahead cycle_streams.old.gone machine.old) (ahead cycle_streams.new.gone machine.new) room.old.cycle room.new.cycle }
{
    machine.cycle += 1;
    machine.written += 1;
    let start = cycle_start(machine.devices.latest().get().root, machine.cycle);
    put_entry(machine, Entry::Async(start), room);
    let gone = cycle_streams.gone;
    cycle_streams.gone += 1;
    let talking_plugs = cycle_streams.talking_plugs.as_mut_slice();
    // A block is kept for the reel only if a deck records.
    match cycle_streams.deck {
        Some(deck) => put_recorded(machine, gone, talking_plugs, deck, desk, &mut room.cycle),
        None => put_talking_plugs(
            machine,
            gone,
            talking_plugs,
            desk,
            &mut room.cycle,
            &mut None,
        ),
    }
}
