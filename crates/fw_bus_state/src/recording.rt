//! What a deck records: the blocks on the channel that its input plug hears (own).

ghost use Rattle.std.specs.Prelude.{◌≡◌, ◌≤◌, None, Some, IfSome};
ghost use Rattle.fw_model_run.specs.Good.{IsGood};
ghost use Rattle.fw_model_run.specs.Recording.{room_of};
ghost use Rattle.fw_model_run.specs.State.{State};
ghost use Rattle.fw_tape.specs.Transports.{same_state};
ghost use Rattle.fw_tape.specs.declared.cassette.Cassette.{Cassette};
ghost use Rattle.fw_bus_state.specs.Recording.{hearing, hearing_of, recording_in, reel_after};
ghost use Rattle.fw_bus_state.specs.Stands.{IsReady, StandsFor};

use crate::Machine;
use fw_dub::{BLOCKS_525, BLOCKS_625};
use fw_tape::{TapeSystem, Transport};

/// What the tied deck records of a cycle.
#[derive(Drop)]
pub struct Recording {
    /// The channel that its input plug hears.
    pub channel: u8,
    /// How many blocks of its tape are kept.
    pub limit: u16,
    /// The block that was written on the channel, if one was.
    pub block: Option<[u8; 480]>,
}

impl Recording {
    /// A block was written on a channel.
    #[inline(always)]
    fn hear(&mut self, channel: u8, bytes: &[u8; 480])
        ensures { self.new ≡ hearing channel bytes.now self.old }
    {
        if self.channel == channel {
            self.block = Some(*bytes);
        }
    }
}

/// A block was written on a channel, which a deck may record.
#[inline(always)]
pub fn hear_block(recording: &mut Option<Recording>, channel: u8, bytes: &[u8; 480])
    ensures { recording.new ≡ hearing_of channel (Some bytes.now) recording.old }
{
    if let Some(recording) = recording {
        recording.hear(channel, bytes);
    }
}

/// How many blocks of a tape of a system are kept: those of 16 frames.
fn room_on(system: TapeSystem) -> u16
    ensures value { (c : Cassette) → c.system ≡ system → result ≡ room_of (Some c) }
    ensures range { result ≤ 4800 }
{
    match system {
        TapeSystem::Lines525 => BLOCKS_525,
        TapeSystem::Lines625 => BLOCKS_625,
    }
}

/// Whether a tape is recorded in this state.
fn is_recording(transport: Transport) -> bool
    ensures { result ≡ same_state transport Transport.Record }
{
    match transport {
        Transport::Record => true,
        _ => false,
    }
}

/// What the tied deck records: None if none is tied, it does not record, or its input plug does not hear.
#[inline(always)]
pub fn recording_on(machine: &Machine) -> Option<Recording>
    requires ready { IsReady machine.now }
    ensures value { (s : State) → IsGood s → StandsFor machine.now s → result ≡ recording_in s }
    ensures limit { IfSome result (λ r. r.limit ≤ 4800) }
    ensures nothing { IfSome result (λ r. r.block ≡ None) }
{
    let node = machine.devices.node(machine.tied?)?;
    let cassette = node.tape_subunit()?.cassette()?;
    let plugs = node.plugs();
    if is_recording(cassette.transport) && plugs.hears(0) {
        Some(Recording {
            channel: plugs.in_word(0).channel(),
            limit: room_on(cassette.system),
            block: None,
        })
    } else {
        None
    }
}

/// The block that was heard, if one was, goes onto the reel, if the tape of the deck has room for it.
pub fn keep(machine: &mut Machine, recording: &Option<Recording>)
    requires { IfSome recording.now (λ r. r.limit ≤ 4800) }
    ensures { machine.new ≡ record machine.old { reel = reel_after recording.now machine.old.reel } }
{
    let Some(recording) = recording else {
        return;
    };
    if let Some(block) = &recording.block {
        let _ = machine.reel.keep(block, recording.limit);
    }
}
