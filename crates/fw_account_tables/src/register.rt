//! The registers of the account: which one stands at an address, its word, and its swaps.

ghost use Rattle.std.specs.Prelude.{◌≡◌, ◌<◌, IfSome, if◌then◌else◌, None};
ghost use Rattle.std.specs.Option.{option_map};
ghost use Rattle.fw_model_account.specs.Account.{Account};
ghost use Rattle.fw_model_account.specs.Decode.{move_at};
ghost use Rattle.fw_model_account.specs.Words.{is_node, manager_register, plug_number, first_output, first_input, output_register, input_register, plug_register, register_of, word_of};
ghost use Rattle.fw_account_tables.specs.Stands.{Stands, StandsFor, Follows};
ghost use Rattle.fw_account_tables.specs.Swaps.{IsThere, register_named, moved_by};

use crate::place::{plug_number, row_at, word_at};
use crate::tables::Tables;
use fw_async::local_number;
use fw_csr::REGISTER_SPACE;
use fw_csr::low_offset::{
    BANDWIDTH_AVAILABLE, CHANNELS_AVAILABLE_HI, CHANNELS_AVAILABLE_LO, IPCR, OPCR,
};
use fw_log_entry::NodeRow;
use fw_terms::PlugAt;
use fw_words::Swap;

/// A register of the account.
#[derive(Clone, Copy)]
pub enum Register {
    /// BANDWIDTH_AVAILABLE.
    Bandwidth,
    /// CHANNELS_AVAILABLE_HI: channels 0 to 31.
    HighChannels,
    /// CHANNELS_AVAILABLE_LO: channels 32 to 63.
    LowChannels,
    /// The output plug control register of a plug.
    Output(PlugAt),
    /// The input plug control register of a plug.
    Input(PlugAt),
}

// The resource manager's register at an offset.
fn manager_register(offset: u64) -> Option<Register>
    ensures { option_map register_named result ≡ manager_register offset }
{
    match offset {
        BANDWIDTH_AVAILABLE => Some(Register::Bandwidth),
        CHANNELS_AVAILABLE_HI => Some(Register::HighChannels),
        CHANNELS_AVAILABLE_LO => Some(Register::LowChannels),
        _ => None,
    }
}

// The output plug's register at an offset of a node.
fn output_register(row: NodeRow, offset: u64) -> Option<Register>
    ensures { option_map register_named result ≡ output_register row (plug_number first_output offset) }
{
    let plug = plug_number(OPCR, offset)?;
    if plug < row.outs {
        Some(Register::Output(PlugAt {
            device: row.device,
            plug,
        }))
    } else {
        None
    }
}

// The input plug's register at an offset of a node.
fn input_register(row: NodeRow, offset: u64) -> Option<Register>
    ensures { option_map register_named result ≡ input_register row (plug_number first_input offset) }
{
    let plug = plug_number(IPCR, offset)?;
    if plug < row.ins {
        Some(Register::Input(PlugAt {
            device: row.device,
            plug,
        }))
    } else {
        None
    }
}

// The plug register at an offset of a node.
#[inline(always)]
fn plug_register(row: Option<NodeRow>, offset: u64) -> Option<Register>
    ensures { option_map register_named result ≡ plug_register row offset }
{
    let row = row?;
    match output_register(row, offset) {
        Some(register) => Some(register),
        None => input_register(row, offset),
    }
}

// The node with this number is the resource manager.
fn is_node(node: u8, manager: Option<u8>) -> bool
    ensures { result ≡ is_node node manager }
{
    match manager {
        Some(n) => n == node,
        None => false,
    }
}

// The register at an offset of a node, if it is the resource manager.
fn managed(node: u8, manager: Option<u8>, offset: u64) -> Option<Register>
    ensures { option_map register_named result ≡ (if is_node node manager then manager_register offset else None) }
{
    if is_node(node, manager) {
        manager_register(offset)
    } else {
        None
    }
}

impl Tables {
    /// The word of a register of the account.
    pub fn word(&self, register: Register) -> u32
        requires stands { Stands self.now }
        requires there { IsThere register self.now }
        ensures { (l : Account) → StandsFor self.now l → result ≡ word_of l (register_named register) }
    {
        match register {
            Register::Bandwidth => self.left,
            Register::HighChannels => self.high,
            Register::LowChannels => self.low,
            Register::Output(p) => word_at(&self.outputs, p),
            Register::Input(p) => word_at(&self.inputs, p),
        }
    }

    /// The register of the account that a node ID and an address name. None if another register stands there, or
    /// none.
    #[inline(always)]
    pub fn register_at(&self, id: u16, address: u64) -> Option<Register>
        requires stands { Stands self.now }
        ensures register { (l : Account) → StandsFor self.now l → option_map register_named result ≡ register_of l.latest id address }
        ensures there { IfSome result (λ register. IsThere register self.now) }
    {
        let number = local_number(id)?;
        if address < REGISTER_SPACE {
            return None;
        }
        let offset = address - REGISTER_SPACE;
        match managed(number, self.manager, offset) {
            Some(register) => Some(register),
            None => plug_register(row_at(self.nodes.as_slice(), id), offset),
        }
    }

    /// The word of this register, if it is one.
    #[inline(always)]
    pub fn word_in(&self, register: Option<Register>) -> Option<u32>
        requires stands { Stands self.now }
        requires there { IfSome register (λ r. IsThere r self.now) }
        ensures { (l : Account) → StandsFor self.now l → result ≡ option_map (word_of l) (option_map register_named register) }
    {
        match register {
            Some(register) => Some(self.word(register)),
            None => None,
        }
    }

    /// Controller `c` swaps the register. It is refused if that is no move.
    pub fn swap(&mut self, c: u8, register: Register, s: Swap) -> bool
        requires stands { Stands self.old }
        requires controller { c < 63 }
        requires there { IsThere register self.old }
        ensures { (l : Account) → StandsFor self.old l → Follows result self.old self.new (moved_by c (move_at l c (register_named register) s.argument s.new) l) }
    {
        match register {
            Register::Bandwidth => self.swap_units(c, s.argument, s.new),
            Register::HighChannels => self.swap_channels(c, 0, s.argument, s.new),
            Register::LowChannels => self.swap_channels(c, 32, s.argument, s.new),
            Register::Output(p) => self.swap_output(c, p, s.argument, s.new),
            Register::Input(p) => self.swap_input(c, p, s.argument, s.new),
        }
    }
}
