ghost use Rattle.std.specs.Prelude.{◌≡◌, ◌<◌, ◌≤◌, length, slice_index_or, [], true, false, IfOk, IfSome, IfNone};
ghost use Rattle.fw_tree.specs.Cables.{peer};
ghost use Rattle.fw_tree.specs.Topology.{ports_of};
ghost use Rattle.fw_devices.specs.Network.{IsNetwork, no_devices, device_named, node_at, is_node};

use crate::MOST_DEVICES;
use crate::bus::Bus;
use crate::names::Names;
use fw_node::Node;
use fw_script_command::Name;
use fw_terms::DeviceKind;
use fw_tree::{Cabling, End};
use std::alloc::{AllocError, Global};
use std::marker::Model;

mod decks;
mod declare;
mod frames;
mod requests;
mod resets;
mod streams;

/// Declared devices by name, their cabling, and the node that each is.
///
/// Devices are numbered in order of declaration from 0, 63 at most. A call that takes a device asks that it is declared.
#[derive(Drop)]
pub struct Devices {
    cabling: Cabling,
    names: Names,
    nodes: Vec<Node>,
    bus: Bus,
    /// Whether the bus withholds channel 31.
    withhold: bool,
}

impl Model for Devices {
    ghost use Rattle.std.specs.Prelude.{vec_capacity};
    ghost use Rattle.fw_devices.specs.Network.{Network};
    ghost use Rattle.fw_devices.specs.Kept.{IsKept};

    ghost Value = { Network };

    ghost view = { λ d. record { topology = d.cabling; names = d.names; nodes = d.nodes.items; epoch = d.bus.entry.epoch; manager = d.bus.manager; latest = d.bus.entry; withheld = d.withhold } };

    ghost invariant = { λ d. IsKept (record { topology = d.cabling; names = d.names; nodes = d.nodes.items; epoch = d.bus.entry.epoch; manager = d.bus.manager; latest = d.bus.entry; withheld = d.withhold })
        (vec_capacity d.nodes) d.bus.current d.bus.numbering };
}

impl Devices {
    /// No devices. The memory for 63 is taken here, and no later call takes any.
    pub fn new(alloc: Global) -> Result<Devices, AllocError>
        ensures { IfOk result (λ d. d ≡ no_devices) }
    {
        Ok(Devices {
            cabling: Cabling::new(),
            names: Names::new(alloc)?,
            nodes: Vec::with_capacity(alloc, MOST_DEVICES)?,
            bus: Bus::new(),
            withhold: false,
        })
    }

    /// How many devices are declared.
    pub fn count(&self) -> u8
        ensures value { result ≡ length self.now.names }
        ensures nodes { result ≡ length self.now.nodes }
        ensures most { result ≤ 63 }
        ensures network { IsNetwork self.now }
    {
        self.nodes.len() as u8
    }

    /// The device with a name, the first of that name. None if no device has it.
    pub fn find(&self, name: &Name) -> Option<u8>
        ensures value { result ≡ device_named self.now.names name.now }
        ensures there { IfSome result (λ d. d < length self.now.names) }
    {
        let device = self.names.find(name)?;
        Some(device as u8)
    }

    /// The name of a device.
    pub fn name(&self, device: u8) -> &Name
        requires declared { device < length self.now.names }
        ensures { result.now ≡ slice_index_or self.now.names device [] }
    {
        self.names.get(usize::from(device))
    }

    /// How many ports a device has: none if there is no such device.
    pub fn ports(&self, device: u8) -> u8
        ensures { result ≡ ports_of self.now.topology.devices device }
    {
        self.cabling.ports(device)
    }

    /// The other end of the cable at a port. None if there is no cable, or no such port.
    pub fn peer(&self, end: End) -> Option<End>
        ensures { result ≡ peer self.now.topology.cables end.device end.port }
    {
        self.cabling.peer(end)
    }

    /// The device that the latest bus reset made isochronous resource manager. None if no device of the bus contends
    /// with a link, and before the first bus reset.
    pub fn manager(&self) -> Option<u8>
        ensures { result ≡ self.now.manager }
    {
        self.bus.manager
    }

    /// The number of the latest bus reset, from 1, and 0 before the first.
    pub fn epoch(&self) -> u32
        ensures { result ≡ self.now.epoch }
    {
        self.bus.entry.epoch
    }

    /// The kind of a device.
    pub fn kind(&self, device: u8) -> DeviceKind
        requires declared { device < length self.now.nodes }
        ensures { result ≡ (node_at self.now.nodes device).kind }
    {
        self.nodes[usize::from(device)].kind()
    }

    /// The node number of a device, 0 to 62, since the latest bus reset that had it on the bus. None before that.
    pub fn number(&self, device: u8) -> Option<u8>
        requires declared { device < length self.now.nodes }
        ensures value { result ≡ (node_at self.now.nodes device).number }
        ensures range { IfSome result (λ number. number ≤ 62) }
    {
        self.nodes[usize::from(device)].number()
    }

    /// The node that a device is. None if there is no such device, or no bus reset had it on the bus.
    pub fn node(&self, device: u8) -> Option<&Node>
        ensures none { IfNone result (is_node self.now.nodes device ≡ false) }
        ensures some { IfSome result (λ node. (node.now ≡ node_at self.now.nodes device) × (is_node self.now.nodes device ≡ true)) }
    {
        let node = self.nodes.get(usize::from(device))?;
        if node.number().is_some() {
            Some(node)
        } else {
            None
        }
    }
}
