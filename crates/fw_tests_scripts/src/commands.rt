//! What a command says, as plain data.

use fw_script_command::{Command, Name};

/// What a command says: the first word of its form, its names, and its numbers, in their order, but for the bytes of a frame.
pub(crate) type Told = (&'static str, [Option<Name>; 3], [u32; 4]);

/// In place of a channel's number, for `any`.
pub(crate) const ANY: u32 = 64;

/// What a command says.
pub(crate) fn told(command: &Command) -> Told {
    (word_of(command), names_of(command), numbers_of(command))
}

fn word_of(command: &Command) -> &'static str {
    match command {
        Command::Device(..) => "device",
        Command::Cable(..) => "cable",
        Command::Reset(_) => "reset",
        Command::Connect(..) => "connect",
        Command::Broadcast(..) => "broadcast",
        Command::Listen(..) => "listen",
        Command::Break(..) => "break",
        Command::Step(..) => "step",
        Command::Settle(_) => "settle",
        Command::Wait(_) => "wait",
        Command::Cycles(_) => "cycles",
        Command::Die(..) => "die",
        Command::Lose(_) => "lose",
        Command::Start(_) => "start",
        Command::Command(..) => "command",
        Command::Read(..) => "read",
        Command::Swap(..) => "swap",
        Command::Insert(..) => "insert",
        Command::Eject(_) => "eject",
        Command::Show(..) => "show",
        Command::Withhold => "withhold",
        Command::Candidate(_) => "candidate",
        Command::Contend(..) => "contend",
        Command::Dub(_) => "dub",
        Command::End => "end",
    }
}

fn names_of(command: &Command) -> [Option<Name>; 3] {
    match command {
        Command::Device(a, ..)
        | Command::Reset(a)
        | Command::Break(a, _)
        | Command::Step(a, _)
        | Command::Die(a, _)
        | Command::Lose(a)
        | Command::Start(a)
        | Command::Insert(a, ..)
        | Command::Eject(a)
        | Command::Candidate(a)
        | Command::Contend(a, _)
        | Command::Dub(a) => [Some(*a), None, None],
        Command::Command(a, b, _) | Command::Read(a, b, _) | Command::Swap(a, b, ..) => {
            [Some(*a), Some(*b), None]
        }
        Command::Cable((a, _), (b, _))
        | Command::Broadcast(a, (b, _), _)
        | Command::Listen(a, (b, _)) => [Some(*a), Some(*b), None],
        Command::Connect(a, (b, _), (c, _), ..) => [Some(*a), Some(*b), Some(*c)],
        Command::Show(a, _) => [*a, None, None],
        _ => [None; 3],
    }
}

fn numbers_of(command: &Command) -> [u32; 4] {
    match command {
        Command::Device(_, kind, ports, speed) => bytes([*kind, *ports, *speed]),
        Command::Cable((_, a), (_, b)) | Command::Broadcast(_, (_, a), b) => bytes([*a, *b, 0]),
        Command::Connect(_, (_, out), (_, into), channel, overhead) => {
            [
                u32::from(*out),
                u32::from(*into),
                number_of(*channel),
                u32::from(*overhead),
            ]
        }
        Command::Listen(_, (_, n)) | Command::Break(_, n) => bytes([*n, 0, 0]),
        Command::Step(_, n)
        | Command::Settle(n)
        | Command::Wait(n)
        | Command::Cycles(n)
        | Command::Contend(_, n) => [*n, 0, 0, 0],
        Command::Die(_, late) => bytes([u8::from(*late), 0, 0]),
        Command::Read(_, _, offset) | Command::Show(_, offset) => [u32::from(*offset), 0, 0, 0],
        Command::Swap(_, _, offset, argument, value) => [u32::from(*offset), *argument, *value, 0],
        Command::Insert(_, tape, system) => [u32::from(*tape), u32::from(*system), 0, 0],
        _ => [0; 4],
    }
}

fn bytes([a, b, c]: [u8; 3]) -> [u32; 4] {
    [u32::from(a), u32::from(b), u32::from(c), 0]
}

fn number_of(channel: Option<u8>) -> u32 {
    match channel {
        Some(channel) => u32::from(channel),
        None => ANY,
    }
}
