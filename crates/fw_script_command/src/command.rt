//! What the lines of a script say.

use crate::Name;
use fw_words::Bytes;

/// A line of a script, with its words after the first in their order.
#[derive(Drop)]
pub enum Command {
    /// `device NAME KIND PORTS SPEED`: the kind's code, the ports, and speed 0 to 2 for 100, 200 and 400 Mbit/s.
    Device(Name, u8, u8, u8),
    /// `cable END END`: each end a device and a port.
    Cable((Name, u8), (Name, u8)),
    /// `reset NAME`.
    Reset(Name),
    /// `connect NAME PLUG PLUG CHANNEL OVERHEAD`: no channel for `any`.
    Connect(Name, (Name, u8), (Name, u8), Option<u8>, u8),
    /// `broadcast NAME PLUG OVERHEAD`.
    Broadcast(Name, (Name, u8), u8),
    /// `listen NAME PLUG`.
    Listen(Name, (Name, u8)),
    /// `break NAME SLOT`.
    Break(Name, u8),
    /// `step NAME COUNT`.
    Step(Name, u32),
    /// `settle ROUNDS`.
    Settle(u32),
    /// `wait CYCLES`.
    Wait(u32),
    /// `cycles COUNT`.
    Cycles(u32),
    /// `die NAME` or `die NAME late`: true for `late`.
    Die(Name, bool),
    /// `lose NAME`.
    Lose(Name),
    /// `start NAME`.
    Start(Name),
    /// `command NAME NAME HEX`: the bytes of a frame.
    Command(Name, Name, Bytes<110>),
    /// `read NAME NAME OFF`.
    Read(Name, Name, u16),
    /// `swap NAME NAME OFF WORD WORD`: the argument, then the new value.
    Swap(Name, Name, u16, u32, u32),
    /// `insert NAME TAPE SYSTEM`: 525 or 625 lines.
    Insert(Name, u16, u16),
    /// `eject NAME`.
    Eject(Name),
    /// `show NAME OFF`: no name for `manager`.
    Show(Option<Name>, u16),
    /// `withhold`: the bus withholds channel 31.
    Withhold,
    /// `candidate NAME`.
    Candidate(Name),
    /// `contend NAME COUNT`.
    Contend(Name, u32),
    /// `dub NAME`.
    Dub(Name),
    /// `end`.
    End,
}
