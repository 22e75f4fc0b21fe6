//! Names in place of numbers.

ghost use Rattle.std.specs.Prelude.{◌≡◌, ◌++◌, ◌<◌, ◌≤◌, IfSome, OnOk, flat_map, length, take};
ghost use Rattle.fw_trace_names.specs.Names.{nameless, with_declared, devices_of, device_text, node_or, node_text, id_text, holder_text, blank_device};

use crate::ends::put_blank_row;
use crate::parts::{put_part, put_row};
use arrayvec::ArrayVec;
use fw_async::number_of;
use fw_log_entry::{NodeList, NodeRow};
use fw_log_names::put_word;
use fw_script_command::{Command, Name};
use std::alloc::{AllocError, Global};
use std::marker::Model;

/// If no node is bus manager, BUS_MANAGER_ID has this number (IEEE 1394-1995, 8.3.2.3.6).
const NO_NODE: u32 = 63;

/// The name of a device, and a row that begins with it, which is copied faster than the name. A row of no bytes has none.
#[derive(Drop)]
struct DeviceName {
    name: Name,
    row: [u8; 16],
    size: usize,
}

impl Model for DeviceName {
    ghost use Rattle.std.specs.Prelude.{◌≡◌, ◌<◌, ◌≤◌, List, ℕ, take};

    ghost Value = { List ℕ };

    ghost view = { λ d. d.name };

    ghost invariant = { λ d. (d.size ≤ 16) × (0 < d.size → take d.size d.row ≡ d.name) };
}

// The row of a name.
fn row_of(name: &[u8]) -> ([u8; 16], usize)
    ensures size { result.1 ≤ 16 }
    ensures row { 0 < result.1 → take result.1 result.0 ≡ name.now }
{
    let mut row = [0; 16];
    if name.len() > row.len() {
        return (row, 0);
    }
    row[..name.len()].copy_from_slice(name);
    (row, name.len())
}

impl DeviceName {
    fn new(name: &Name) -> DeviceName
        ensures { result ≡ name.now }
    {
        let (row, size) = row_of(name.as_slice());
        DeviceName {
            name: *name,
            row,
            size,
        }
    }

    // A row that begins with it, and its length, if there is one.
    #[inline(always)]
    fn row(&self) -> Option<(&[u8; 16], usize)>
        ensures { IfSome result (λ r. (r.1 ≤ 16) × (take r.1 r.0.now ≡ self.now)) }
    {
        if self.size == 0 {
            return None;
        }
        Some((&self.row, self.size))
    }

    // Appends it.
    #[inline(always)]
    fn put(&self, text: &mut Vec<u8>) -> Result<(), AllocError>
        ensures { OnOk result (text.new.items ≡ text.old.items ++ self.now) }
    {
        if self.size == 0 {
            return text.extend_from_slice(self.name.as_slice());
        }
        put_row(text, &self.row, self.size)
    }
}

/// The names of the devices in order of declaration, and the device that each node is since the latest bus reset. Contracts see it as both.
#[derive(Drop)]
pub struct Names {
    names: Vec<DeviceName>,
    nodes: ArrayVec<u8, 63>,
}

impl Model for Names {
    ghost use Rattle.fw_trace_names.specs.Names.{Naming};

    ghost Value = { Naming };

    ghost view = { λ n. record { names = n.names.items; nodes = n.nodes.items } };
}

// The devices of nodes.
fn devices_of(rows: &[NodeRow]) -> ArrayVec<u8, 63>
    requires { length rows.now ≤ 63 }
    ensures { result.items ≡ devices_of rows.now }
{
    let mut nodes = ArrayVec::new();
    for i in 0..rows.len() {
        nodes.push(rows[i].device);
    }
    nodes
}

// Appends each device after a space.
fn put_devices(text: &mut Vec<u8>, names: &Names, nodes: &[u8]) -> Result<(), AllocError>
    ensures { OnOk result (text.new.items ≡ text.old.items ++ flat_map (blank_device names.now) nodes.now) }
{
    for i in 0..nodes.len() {
        names.put_blank_device(text, nodes[i])?;
    }
    Ok(())
}

impl Names {
    /// No device is declared, and no node is known.
    pub fn new(alloc: Global) -> Names
        ensures { result ≡ nameless }
    {
        Names {
            names: Vec::new(alloc),
            nodes: ArrayVec::new(),
        }
    }

    /// Takes the name of a device that a command declares; no other command changes anything. An error says that memory ran out, and comes
    /// for nothing else: no name is taken then.
    pub fn declare(&mut self, command: &Command) -> Result<(), AllocError>
        ensures names { OnOk result (self.new ≡ record self.old { names = with_declared command.now self.old.names }) }
        ensures nodes { self.new.nodes ≡ self.old.nodes }
    {
        if let Command::Device(name, ..) = command {
            self.names.push(DeviceName::new(name))?;
        }
        Ok(())
    }

    /// Takes the nodes that a bus reset leaves, in place of those before.
    pub fn renumber(&mut self, rows: &NodeList)
        ensures { self.new ≡ record self.old { nodes = devices_of rows.now } }
    {
        self.nodes = devices_of(rows.as_slice());
    }

    /// Appends the name of a device, or if none is declared with this number the word `device` and the number. An error says that memory ran out, and comes for nothing else: a part of the text may be appended then.
    #[inline(always)]
    #[tactic(auto, unfolding(crate::specs::Names::device_text))]
    pub fn put_device(&self, text: &mut Vec<u8>, device: u32) -> Result<(), AllocError>
        ensures { OnOk result (text.new.items ≡ text.old.items ++ device_text self.now device) }
    {
        match self.names.get(device as usize) {
            Some(name) => name.put(text),
            None => put_part(text, "device ", u64::from(device)),
        }
    }

    // Appends a device after a space, one after the other.
    #[inline(never)]
    fn put_blank_pieces(&self, text: &mut Vec<u8>, device: u8) -> Result<(), AllocError>
        ensures { OnOk result (text.new.items ≡ text.old.items ++ blank_device self.now device) }
    {
        put_word(text, " ")?;
        self.put_device(text, u32::from(device))
    }

    // A row that begins with the name of a device, and the name's length, if there is one.
    #[inline(always)]
    #[tactic(auto, unfolding(crate::specs::Names::device_text))]
    fn device_row(&self, device: u8) -> Option<(&[u8; 16], usize)>
        ensures { IfSome result (λ r. (r.1 ≤ 16) × (take r.1 r.0.now ≡ device_text self.now device)) }
    {
        self.names.get(usize::from(device))?.row()
    }

    /// Appends a device after a space. An error says that memory ran out, and comes for nothing else: a part of the text may be appended then.
    #[inline(always)]
    pub fn put_blank_device(&self, text: &mut Vec<u8>, device: u8) -> Result<(), AllocError>
        ensures { OnOk result (text.new.items ≡ text.old.items ++ blank_device self.now device) }
    {
        match self.device_row(device) {
            Some((row, size)) => put_blank_row(text, row, size),
            None => self.put_blank_pieces(text, device),
        }
    }

    /// Appends the device that each node is, after a space, in the order of their numbers. An error says that memory ran out, and comes for nothing else: a part of the text may be appended then.
    pub fn put_nodes(&self, text: &mut Vec<u8>) -> Result<(), AllocError>
        ensures { OnOk result (text.new.items ≡ text.old.items ++ flat_map (blank_device self.now) self.now.nodes) }
    {
        put_devices(text, self, self.nodes.as_slice())
    }

    /// Appends the name of the device that a node is, or if there is no node of this number the word `node` and the number. An error says that memory ran out, and comes for nothing else: a part of the text may be appended then.
    #[inline(always)]
    #[tactic(auto, unfolding(crate::specs::Names::node_text, crate::specs::Names::node_or))]
    pub fn put_node(&self, text: &mut Vec<u8>, number: u32) -> Result<(), AllocError>
        ensures { OnOk result (text.new.items ≡ text.old.items ++ node_text self.now number) }
    {
        match self.nodes.as_slice().get(number as usize) {
            Some(device) => self.put_device(text, u32::from(*device)),
            None => put_part(text, "node ", u64::from(number)),
        }
    }

    /// Appends the node with an ID, 16 bits of which the lower six are its number. An error says that memory ran out, and comes for nothing else: a part of the text may be appended then.
    #[inline(always)]
    pub fn put_id(&self, text: &mut Vec<u8>, id: u16) -> Result<(), AllocError>
        ensures { OnOk result (text.new.items ≡ text.old.items ++ id_text self.now id) }
    {
        self.put_node(text, u32::from(number_of(id)))
    }

    // A row that begins with the name of the node with an ID, and the name's length, if there is one.
    #[inline(always)]
    #[tactic(auto, unfolding(crate::specs::Names::node_text, crate::specs::Names::node_or, crate::specs::Names::device_text))]
    pub(crate) fn row_of(&self, id: u16) -> Option<(&[u8; 16], usize)>
        ensures { IfSome result (λ r. (r.1 ≤ 16) × (take r.1 r.0.now ≡ id_text self.now id)) }
    {
        let device = self.nodes.as_slice().get(usize::from(number_of(id)))?;
        let name = self.names.get(usize::from(*device))?;
        name.row()
    }

    // Appends the node whose number BUS_MANAGER_ID has.
    #[tactic(auto, unfolding(crate::specs::Names::holder_text))]
    pub(crate) fn put_holder(&self, text: &mut Vec<u8>, number: u32) -> Result<(), AllocError>
        ensures { OnOk result (text.new.items ≡ text.old.items ++ holder_text self.now number) }
    {
        if number == NO_NODE {
            return put_word(text, "none");
        }
        self.put_node(text, number)
    }
}
