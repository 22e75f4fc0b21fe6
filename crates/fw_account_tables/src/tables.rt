//! The tables that stand for the account.

ghost use Rattle.std.specs.Prelude.{◌≡◌, IfOk};
ghost use Rattle.fw_model_account.specs.Fold.{no_account};
ghost use Rattle.fw_account_tables.specs.Stands.{StandsFor, first_high, no_seats};

use fw_log_entry::NodeList;
use fw_terms::PlugAt;
use fw_words::Swap;
use std::alloc::{AllocError, Global};

/// What is allocated of a channel, and to whom.
#[derive(Clone, Copy)]
pub enum Charge {
    /// The channel is free.
    Free,
    /// A controller has it that has not connected the plug yet, or no longer.
    Pending {
        controller: u8,
        plug: PlugAt,
        units: u32,
    },
    /// The connections of the plug have it.
    Connected {
        plug: PlugAt,
        units: u32,
    },
    /// A controller left it that died since.
    Orphaned {
        plug: PlugAt,
        units: u32,
    },
}

/// A flow that may be allocated again in the reclaim second.
#[derive(Clone, Copy)]
pub enum Reclaimable {
    /// There is none on the channel.
    Nothing,
    /// The flow of a plug.
    Flow { plug: PlugAt, units: u32 },
}

/// The output plug that a controller last addressed while it had no Pending allocation.
#[derive(Clone, Copy)]
pub enum Addressed {
    /// It addressed none.
    Nowhere,
    /// It addressed this plug.
    Plug(PlugAt),
}

/// Who made the broadcast connection of a plug.
#[derive(Clone, Copy)]
pub enum Broadcaster {
    /// There is no broadcast connection.
    Nobody,
    /// The controller of a device.
    Controller(u8),
    /// A controller that died since.
    Died,
}

/// Whose the connections of a plug are: how many point-to-point connections each controller has, and the broadcast
/// connection.
#[derive(Clone, Copy)]
pub struct Seats {
    pub counts: [u8; 63],
    pub broadcaster: Broadcaster,
}

/// An outstanding request: the node ID that it is sent to, the address there, and what it asks for.
#[derive(Clone, Copy)]
pub enum Asked {
    /// There is none.
    Nothing,
    /// To read a quadlet.
    Read {
        target: u16,
        address: u64,
    },
    /// A quadlet compare_swap.
    Swap {
        target: u16,
        address: u64,
        swap: Swap,
    },
    /// Another lock function, or one whose data is none of two quadlets.
    Lock {
        target: u16,
        address: u64,
        function: u8,
    },
}

/// The account in tables: by channel, by controller, by device and by plug.
#[derive(Drop)]
pub struct Tables {
    /// A reset entry came.
    pub started: bool,
    pub manager: Option<u8>,
    pub nodes: NodeList,
    /// The bus withholds channel 31.
    pub withheld: bool,
    pub reclaiming: bool,
    /// BANDWIDTH_AVAILABLE, and both halves of CHANNELS_AVAILABLE.
    pub left: u32,
    pub high: u32,
    pub low: u32,
    pub charges: Vec<Charge>,
    pub reclaimable: Vec<Reclaimable>,
    pub addressed: Vec<Addressed>,
    pub asked: Vec<Asked>,
    /// How many plugs each device has.
    pub outs: [u8; 63],
    pub ins: [u8; 63],
    /// The words of the plug registers, with 31 places for each device, and so the tables below.
    pub outputs: Vec<u32>,
    pub inputs: Vec<u32>,
    pub output_seats: Vec<Seats>,
    pub input_seats: Vec<Seats>,
    pub continues: Vec<bool>,
}

/// How many plugs there may be: 31 on each of 63 devices.
pub const PLUGS: usize = 1953;

impl Seats {
    /// No connections.
    pub fn empty() -> Seats
        ensures { result ≡ no_seats }
    {
        Seats {
            counts: [0; 63],
            broadcaster: Broadcaster::Nobody,
        }
    }
}

/// CHANNELS_AVAILABLE_HI if nothing is allocated: the lowest bit, that of channel 31, is 0 if the bus withholds it.
pub fn first_high(withheld: bool) -> u32
    ensures { result ≡ first_high withheld }
{
    u32::MAX - u32::from(withheld)
}

impl Tables {
    /// The tables of no entries.
    pub fn new(alloc: Global) -> Result<Tables, AllocError>
        ensures { IfOk result (λ t. StandsFor t no_account) }
    {
        Ok(Tables {
            started: false,
            manager: None,
            nodes: NodeList::new(),
            withheld: false,
            reclaiming: false,
            left: 4915,
            high: first_high(false),
            low: u32::MAX,
            charges: vec![in alloc; Charge::Free; 64]?,
            reclaimable: vec![in alloc; Reclaimable::Nothing; 64]?,
            addressed: vec![in alloc; Addressed::Nowhere; 63]?,
            asked: vec![in alloc; Asked::Nothing; 63]?,
            outs: [0; 63],
            ins: [0; 63],
            outputs: vec![in alloc; 0; PLUGS]?,
            inputs: vec![in alloc; 0; PLUGS]?,
            output_seats: vec![in alloc; Seats::empty(); PLUGS]?,
            input_seats: vec![in alloc; Seats::empty(); PLUGS]?,
            continues: vec![in alloc; false; PLUGS]?,
        })
    }
}
