//! Numbers by which most controllers differ, so that one that is kept is found soon. What is found by them is compared.

use crate::{Connection, Current, Flow, Slot, Stage};
use fw_terms::PlugAt;

// A number by which most connections differ: those of one bus have plugs of different devices.
fn connection_mark(connection: Connection) -> u32 {
    match connection {
        Connection::PlugToPlug { output, input } => plug_mark(output)
            .wrapping_mul(31)
            .wrapping_add(plug_mark(input)),
        Connection::BroadcastOut { output } => plug_mark(output),
        Connection::BroadcastIn { input } => plug_mark(input),
    }
}

fn plug_mark(plug: PlugAt) -> u32 {
    u32::from(plug.device)
        .wrapping_mul(32)
        .wrapping_add(u32::from(plug.plug))
}

fn flow_mark(flow: Flow) -> u32 {
    marked(flow.channel, flow.units, 0)
}

// A number by which most slots differ.
pub(crate) fn slot_mark(slot: Slot) -> u32 {
    match slot {
        Slot::Free => 0,
        Slot::Making(made, _, _) => connection_mark(made).wrapping_mul(5).wrapping_add(1),
        Slot::Established(made, flow) => connection_mark(made)
            .wrapping_mul(5)
            .wrapping_add(2)
            .wrapping_add(flow_mark(flow)),
        Slot::Restoring(made, flow, _) => connection_mark(made)
            .wrapping_mul(5)
            .wrapping_add(3)
            .wrapping_add(flow_mark(flow)),
        Slot::Gone(made) => connection_mark(made).wrapping_mul(5).wrapping_add(4),
    }
}

// A number by which a channel, units or a word, and what is done with them mostly differ.
fn marked(channel: u8, word: u32, what: u32) -> u32 {
    word.wrapping_mul(37)
        .wrapping_add(u32::from(channel))
        .wrapping_mul(41)
        .wrapping_add(what)
}

// A number by which most stages differ.
fn stage_mark(stage: Stage) -> u32 {
    match stage {
        Stage::Begin => 0,
        Stage::ReadOutput => 1,
        Stage::ReadChannels(channel, word) => marked(channel, word, 2),
        Stage::SwapChannels(channel, word, _) => marked(channel, word, 3),
        Stage::ReadBandwidth(channel, word) => marked(channel, word, 4),
        Stage::SwapBandwidth(channel, _, word, _) => marked(channel, word, 5),
        Stage::ConnectOutput(channel, _, word) => marked(channel, word, 6),
        Stage::OverlayOutput(word) => marked(0, word, 7),
        Stage::ReadInput(flow) => marked(flow.channel, flow.units, 8),
        Stage::ConnectInput(flow, word) => marked(flow.channel, word, 9),
        Stage::ReadInputToLeave(channel, units) => marked(channel, units, 10),
        Stage::LeaveInput(channel, _, word) => marked(channel, word, 11),
        Stage::ReadOutputToLeave(_, channel, units) => marked(channel, units, 12),
        Stage::LeaveOutput(_, channel, _, word) => marked(channel, word, 13),
        Stage::ReadBandwidthToRelease(_, channel, units) => marked(channel, units, 14),
        Stage::RaiseBandwidth(_, channel, _, word) => marked(channel, word, 15),
        Stage::ReadChannelsToRelease(_, channel) => marked(channel, 0, 16),
        Stage::RestoreChannel(_, channel, word) => marked(channel, word, 17),
        Stage::Made(flow) => marked(flow.channel, flow.units, 18),
        Stage::Ended(_) => 19,
    }
}

// A number by which most controllers differ that are at other things.
pub(crate) fn work_mark(current: Current) -> u32 {
    match current {
        Current::Nothing => 0,
        Current::Asking(_, stage) => stage_mark(stage).wrapping_mul(4).wrapping_add(1),
        Current::Hearing(_, stage) => stage_mark(stage).wrapping_mul(4).wrapping_add(2),
        Current::Overtaken(slot, _) => u32::from(slot).wrapping_mul(4).wrapping_add(3),
    }
}
