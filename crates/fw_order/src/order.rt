use fw_script_command::Name;
use fw_tape::TapeSystem;
use fw_terms::{DeviceKind, PlugAt};
use fw_tree::End;
use fw_words::{Data, Swap};

/// What a transaction of the script asks of a register, by its offset from FFFF F000 0000, 000 to FFF.
#[derive(Clone, Copy)]
pub enum Access {
    /// A quadlet read.
    Read(u16),
    /// A quadlet compare_swap.
    Swap(u16, Swap),
}

/// A transaction of the script, from one device to another, both by number.
#[derive(Clone, Copy)]
pub struct Transaction {
    pub from: u8,
    pub to: u8,
    pub access: Access,
}

/// A new connection of a controller, as a command asks for it.
#[derive(Clone, Copy)]
pub enum Wanted {
    /// A point-to-point connection of an output plug to an input plug: the channel, none for the lowest free one, and the
    /// overhead_ID.
    PlugToPlug(PlugAt, PlugAt, Option<u8>, u8),
    /// A broadcast-out connection of an output plug, with this overhead_ID.
    BroadcastOut(PlugAt, u8),
    /// A broadcast-in connection of an input plug.
    BroadcastIn(PlugAt),
}

/// A command, with its devices by number: they have their numbers in order of declaration, from 0. The bytes of a frame lie in
/// the command.
#[derive(Drop)]
pub enum Order<'a> {
    /// The bus withholds channel 31: it cannot be allocated.
    Withhold,
    /// A device more: its name, its kind, its ports (1 to 27) and its speed (0, 1, 2 for 100, 200, 400 Mbit/s).
    Declare(Name, DeviceKind, u8, u8),
    /// A cable between two ports.
    Cable(End, End),
    /// A bus reset that the device begins.
    Reset(u8),
    /// A new connection of the device's controller, and the slot that it takes, 0 to 31.
    Connect(u8, Wanted, u8),
    /// A break of the connection in a slot of the device's controller.
    Break(u8, u8),
    /// Half steps of the device's controller, 1 to 10,000.
    Step(u8, u32),
    /// Rounds of half steps of all living controllers, 1 to 200,000.
    Settle(u32),
    /// Cycles that go by.
    Wait(u32),
    /// Cycles that go by and are written, 1 to 8,000.
    Cycles(u32),
    /// The device's controller dies: true if its standing request is carried out before.
    Die(u8, bool),
    /// The standing request of the device's controller is carried out, and the controller does not hear the response.
    Lose(u8),
    /// The device's controller starts.
    Start(u8),
    /// A transaction, carried out whole.
    Transact(Transaction),
    /// Bytes that the first device writes to FCP_COMMAND of the second, 1 to 110.
    Command(u8, u8, Data<'a>),
    /// A tape with this number goes into a deck, and replaces one that is there.
    Insert(u8, u16, TapeSystem),
    /// The tape goes out of a deck, if one is there.
    Eject(u8),
    /// The word that stands at an offset of a device is shown.
    Show(u8, u16),
    /// The computer becomes a candidate for the bus manager.
    Candidate(u8),
    /// Half steps of the candidate, 1 to 10,000.
    Contend(u8, u32),
    /// The reel is emptied, and tied to this deck.
    Dub(u8),
    /// The end of the script.
    End,
}
