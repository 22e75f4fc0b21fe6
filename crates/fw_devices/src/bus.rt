//! The bus as tree identification and self-identification find it, kept until a device or a cable comes.

ghost use Rattle.std.specs.Prelude.{◌≡◌, ◌+◌, ◌<◌, ◌≤◌, ◌^◌, ℕ, List, Some, None, IfSome, IsTrue, true, false, length, slice_get};
ghost use Rattle.fw_terms.specs.declared.device.DeviceKind.{DeviceKind as Kind};
ghost use Rattle.fw_tree.specs.Topology.{Topology};
ghost use Rattle.fw_tree.specs.Numbers.{AreNodes, device_at, has_number, number_at};
ghost use Rattle.fw_devices.specs.Network.{AreKinds, kinds_of, kind_at, no_entry};
ghost use Rattle.fw_devices.specs.Entries.{begun, row_of, number_of};
ghost use Rattle.fw_devices.specs.Kept.{IsFound};

use crate::MOST_DEVICES;
use fw_log_entry::{NodeList, NodeRow, ResetEntry};
use fw_node::Node;
use fw_phy::SelfIds;
use fw_terms::DeviceKind;
use fw_tree::{Cabling, Numbering, devices_of, number_of};

/// What was found of the bus, and the entry of its latest bus reset.
#[derive(Drop)]
pub struct Bus {
    /// It is of the devices and cables as they are.
    pub current: bool,
    pub numbering: Numbering,
    /// The device that is isochronous resource manager.
    pub manager: Option<u8>,
    pub entry: ResetEntry,
}

// The node number of a device, if there is one.
fn number_where(numbering: &Numbering, device: Option<u8>) -> Option<u8>
    requires { IfSome device (λ d. d < 63) }
    ensures { result ≡ number_of numbering.now.number device }
{
    numbering.number[usize::from(device?)]
}

// A number that is found to be that of a device is.
fn is_number(numbering: &Numbering, device: u8, node: u8) -> bool
    ensures { IsTrue result → number_at numbering.now.number device ≡ Some node }
{
    if usize::from(device) >= MOST_DEVICES {
        return false;
    }
    numbering.number[usize::from(device)] == Some(node)
}

fn row_of(device: u8, kind: DeviceKind) -> NodeRow
    ensures { result ≡ row_of device kind }
{
    NodeRow {
        device,
        outs: kind.output_plugs(),
        ins: kind.input_plugs(),
        kind: kind.code(),
    }
}

// What the entry of a bus reset says of each node, in order of node. The list has the device of each.
fn rows_of(nodes: &[Node], numbering: &Numbering, devices: &[u8; 63]) -> NodeList
    requires nodes { AreNodes numbering.now.number numbering.now.count }
    requires declared { (d n : ℕ) → number_at numbering.now.number d ≡ Some n → d < length nodes.now }
    requires few { numbering.now.count ≤ 63 }
    requires devices { (n : ℕ) → n < numbering.now.count → number_at numbering.now.number (device_at devices.now n) ≡ Some n }
    requires range { (n : ℕ) → n < numbering.now.count → device_at devices.now n < 63 }
    ensures size { length result ≡ numbering.now.count }
    ensures rows { (d n : ℕ) → number_at numbering.now.number d ≡ Some n → slice_get result n ≡ Some (row_of d (kind_at (kinds_of nodes.now) d)) }
{
    let mut rows = NodeList::new();
    for n in 0..numbering.count {
        let device = devices[n as usize];
        rows.push(row_of(device, nodes[device as usize].kind()));
    }
    rows
}

// Identifies the tree of a cabling whose devices are these nodes.
fn identify(cabling: &Cabling, nodes: &[Node], bus: &mut Bus)
    requires some { 0 < length cabling.now.devices }
    requires kinds { AreKinds cabling.now.devices (kinds_of nodes.now) }
    ensures found { IsFound cabling.now (kinds_of nodes.now) bus.new.numbering bus.new.manager bus.new.entry }
    ensures current { bus.new.current ≡ true }
    ensures epoch { bus.new.entry.epoch ≡ bus.old.entry.epoch }
{
    let numbering = cabling.identify();
    let devices = devices_of(&numbering.number, numbering.count);
    let manager = cabling.manager(&numbering, &devices);
    cabling.self_ids(&numbering, &devices, 0, &mut bus.entry.ids);
    bus.entry.root = number_of(&numbering, numbering.root);
    bus.entry.manager = number_where(&numbering, manager);
    bus.entry.nodes = rows_of(nodes, &numbering, &devices);
    bus.numbering = numbering;
    bus.manager = manager;
    bus.current = true;
}

/// The same, if that was not done since the latest change of devices and cables.
pub fn find(cabling: &Cabling, nodes: &[Node], bus: &mut Bus)
    requires some { 0 < length cabling.now.devices }
    requires kinds { AreKinds cabling.now.devices (kinds_of nodes.now) }
    requires found { bus.old.current ≡ true → IsFound cabling.now (kinds_of nodes.now) bus.old.numbering bus.old.manager bus.old.entry }
    ensures found { IsFound cabling.now (kinds_of nodes.now) bus.new.numbering bus.new.manager bus.new.entry }
    ensures current { bus.new.current ≡ true }
    ensures epoch { bus.new.entry.epoch ≡ bus.old.entry.epoch }
{
    if !bus.current {
        identify(cabling, nodes, bus);
    }
}

/// No bus reset came yet.
pub fn no_reset() -> ResetEntry
    ensures { result ≡ no_entry }
{
    ResetEntry {
        epoch: 0,
        root: 0,
        manager: None,
        initiator: 0,
        nodes: NodeList::new(),
        ids: SelfIds::new(),
    }
}

impl Bus {
    /// Nothing was found yet, and no bus reset came.
    pub fn new() -> Bus
        ensures current { result.current ≡ false }
        ensures manager { result.manager ≡ None }
        ensures entry { result.entry ≡ no_entry }
    {
        Bus {
            current: false,
            numbering: Numbering {
                root: 0,
                count: 0,
                number: [None; 63],
                parent_port: [None; 63],
            },
            manager: None,
            entry: no_reset(),
        }
    }

    /// The next bus reset, which a device of the bus begins.
    pub fn begin(&mut self, initiator: u8)
        requires device { initiator < 63 }
        requires on { has_number self.old.numbering.number initiator ≡ true }
        requires few { self.old.entry.epoch + 1 < 2 ^ 32 }
        ensures { (node : ℕ) → number_at self.old.numbering.number initiator ≡ Some node → self.new ≡ record self.old { entry = begun node self.old.entry } }
    {
        let node = number_of(&self.numbering, initiator);
        self.entry.ids.set_initiator(node);
        self.entry.initiator = node;
        self.entry.epoch += 1;
    }

    // If the entry of another bus reset has its initiator under the same number, that bus reset is the latest one by epoch, initiator
    // and packets.
    fn take_initiator(&mut self, entry: &ResetEntry)
        ensures same { self.new ≡ record self.old { entry = self.new.entry } }
        ensures found { (t : Topology) (kinds : List Kind) → IsFound t kinds self.old.numbering self.old.manager self.old.entry
            → IsFound t kinds self.new.numbering self.new.manager self.new.entry }
    {
        let node = entry.initiator;
        let Some(row) = entry.nodes.as_slice().get(usize::from(node)) else {
            return;
        };
        if !is_number(&self.numbering, row.device, node) {
            return;
        }
        self.entry.ids.set_initiator(node);
        self.entry.initiator = node;
        self.entry.epoch = entry.epoch;
    }

    /// The latest bus reset is another one. What was found stays current if it is so of that one too.
    pub fn change(&mut self, entry: &ResetEntry, manager: Option<u8>)
        ensures entry { self.new.entry ≡ entry.now }
        ensures manager { self.new.manager ≡ manager }
        ensures found { (t : Topology) (kinds : List Kind) → (self.old.current ≡ true → IsFound t kinds self.old.numbering self.old.manager self.old.entry)
            → self.new.current ≡ true → IsFound t kinds self.new.numbering self.new.manager self.new.entry }
    {
        self.take_initiator(entry);
        if self.manager == manager && self.entry.is_same(entry) {
            return;
        }
        self.entry.copy_from(entry);
        self.manager = manager;
        self.current = false;
    }
}
