//! The output plugs that talk while cycles are written: what each sends is at hand, so that in a cycle no other device is looked at.

ghost use Rattle.std.specs.Prelude.{◌≡◌, ◌≤◌, ◌<◌, ◌^◌, Some, None, length, slice_index_or, IfSome, IsTrue};
ghost use Rattle.fw_node.specs.Streams.{talking_on};
ghost use Rattle.fw_devices.specs.Decks.{tape_of};
ghost use Rattle.fw_devices.specs.Network.{is_node, node_at};
ghost use Rattle.fw_devices.specs.Streams.{AreTalkers};
ghost use Rattle.fw_model_run.specs.Good.{IsGood};
ghost use Rattle.fw_model_run.specs.State.{State};
ghost use Rattle.fw_bus_engine.specs.Playing.{AreTalkingPlugs, IsAt, IsCycleStreamsOf, IsTalkingPlug, ahead, recorded};
ghost use Rattle.fw_bus_state.specs.Recording.{recording_in};
ghost use Rattle.fw_bus_state.specs.Stands.{IsReady, StandsFor};

use arrayvec::ArrayVec;
use fw_bus_state::{Machine, recording_on};
use fw_cip::Talker;
use fw_devices::Talkers;
use fw_tape::Tape;

/// An output plug that talks.
#[derive(Drop)]
pub(crate) struct TalkingPlug {
    /// The number of its node.
    pub own: u8,
    /// What it has sent.
    pub talker: Talker,
    /// A copy of the tape of its device, which moves on cycle by cycle.
    pub tape: Tape,
}

/// The channel that the tied deck hears while it records, and how many blocks of its tape are kept.
#[derive(Clone, Copy)]
pub(crate) struct RecordingDeck {
    pub channel: u8,
    pub limit: u16,
}

/// What sends and records while cycles are written. It is some cycles ahead of the machine's devices and counts, which follow by `settle`.
#[derive(Drop)]
pub(crate) struct CycleStreams {
    /// By channel, up to the last that has one.
    pub talking_plugs: ArrayVec<Option<TalkingPlug>, 64>,
    pub deck: Option<RecordingDeck>,
    /// How many cycles it is ahead.
    pub gone: u64,
}

/// A copy of a tape.
fn copy_of(tape: &Tape) -> Tape
    ensures { result ≡ tape.now }
{
    let mut copy = Tape::new();
    copy.copy_from(tape);
    copy
}

/// A copy of the tape in a device of the bus.
fn tape_in(machine: &Machine, device: u8) -> Tape
    requires { IsTrue (is_node machine.now.devices.nodes device) }
    ensures { result ≡ tape_of (node_at machine.now.devices.nodes device) }
{
    match machine.devices.node(device) {
        Some(node) => match node.tape_subunit() {
            Some(tape) => copy_of(tape),
            None => Tape::new(),
        },
        None => Tape::new(),
    }
}

/// The output plug of a device, which talks on this channel.
fn talking_plug_of(machine: &Machine, device: u8, channel: u8) -> TalkingPlug
    requires ready { IsReady machine.now }
    requires declared { device < length machine.now.devices.nodes }
    requires talks { talking_on (node_at machine.now.devices.nodes device) ≡ Some channel }
    ensures { IsTalkingPlug machine.now.devices.nodes machine.now.streams device channel result }
{
    TalkingPlug {
        own: machine.number(device),
        talker: machine.streams.talker(device, channel),
        tape: tape_in(machine, device),
    }
}

/// The output plug that talks on a channel.
fn talking_plug_on(machine: &Machine, talkers: &Talkers, channel: u8) -> Option<TalkingPlug>
    requires ready { IsReady machine.now }
    requires talkers { AreTalkers (length machine.now.devices.nodes) machine.now.devices.nodes talkers.now }
    requires channel { channel < 64 }
    ensures { IsAt machine.now.devices.nodes machine.now.streams channel (slice_index_or talkers.now channel None) result }
{
    match talkers.get(channel) {
        Some(device) => Some(talking_plug_of(machine, device, channel)),
        None => None,
    }
}

/// All that talk.
fn talking_plugs_of(machine: &Machine) -> ArrayVec<Option<TalkingPlug>, 64>
    requires ready { IsReady machine.now }
    ensures { AreTalkingPlugs machine.now.devices.nodes machine.now.streams result.items }
{
    let talkers = machine.devices.talkers();
    let mut talking_plugs = ArrayVec::new();
    for channel in 0..talkers.end() {
        talking_plugs.push(talking_plug_on(machine, &talkers, channel));
    }
    talking_plugs
}

/// The tied deck, if it records.
fn deck_of(machine: &Machine) -> Option<RecordingDeck>
    requires ready { IsReady machine.now }
    ensures value { (s : State) → IsGood s → StandsFor machine.now s → recorded result ≡ recording_in s }
    ensures limit { IfSome result (λ k. k.limit ≤ 4800) }
{
    match recording_on(machine) {
        Some(recording) => Some(RecordingDeck {
            channel: recording.channel,
            limit: recording.limit,
        }),
        None => None,
    }
}

impl CycleStreams {
    /// What sends and records by the machine, which it is not ahead of.
    pub(crate) fn of(machine: &Machine) -> CycleStreams
        requires { IsReady machine.now }
        ensures cycle_streams { IsCycleStreamsOf machine.now result }
        ensures gone { result.gone ≡ 0 }
    {
        CycleStreams {
            talking_plugs: talking_plugs_of(machine),
            deck: deck_of(machine),
            gone: 0,
        }
    }

    /// The machine's devices and counts follow.
    pub(crate) fn settle(&self, machine: &mut Machine)
        requires ready { IsReady (ahead self.now.gone machine.old) }
        requires few { machine.old.cycle ≤ 2 ^ 52 }
        ensures { machine.new ≡ ahead self.now.gone machine.old }
    {
        if self.gone == 0 {
            return;
        }
        machine.streams.pass(&mut machine.devices, self.gone);
    }
}
