//! Devices and cables that are declared.

ghost use Rattle.std.specs.Prelude.{◌≡◌, ◌<◌, ◌≤◌, true, [], length, IfErr, OnOk};
ghost use Rattle.fw_tree.specs.declared.TreeFault.{TreeFault};
ghost use Rattle.fw_tree.specs.Topology.{IsFault, IsJoined};
ghost use Rattle.fw_devices.specs.Network.{facts_of, with_device};

use super::Devices;
use fw_node::Node;
use fw_script_command::Name;
use fw_terms::DeviceKind;
use fw_tree::{End, PhyFacts, TreeFault};

// What the PHY of a device says.
fn facts_of(kind: DeviceKind, ports: u8, speed: u8) -> PhyFacts
    ensures { result ≡ facts_of kind ports speed }
{
    PhyFacts {
        ports,
        speed,
        link: kind.has_link(),
        contender: kind.is_contender(),
    }
}

impl Devices {
    /// Declares a device of 1 to 27 ports, with a PHY of speed 0, 1 or 2 for 100, 200 or 400 Mbit/s, which is the data
    /// rate of its plugs too (own). It has no cable, and is no node until a bus reset. A name may be given twice.
    pub fn add(&mut self, name: &Name, kind: DeviceKind, ports: u8, speed: u8)
        requires room { length self.old.names < 63 }
        requires some { 1 ≤ ports }
        requires most { ports ≤ 27 }
        requires speed { speed ≤ 2 }
        ensures { self.new ≡ with_device self.old name.now kind ports speed }
    {
        let device = match self.cabling.add(facts_of(kind, ports, speed)) {
            Ok(device) => device,
            Err(_) => unreachable!(),
        };
        self.bus.current = false;
        self.names.push(name);
        self.nodes
            .push(Node::of_kind(kind, device, speed, self.withhold))
            .unwrap();
    }

    /// The bus withholds channel 31 from now on: it is not free after any bus reset. No device is declared yet.
    pub fn withhold(&mut self)
        requires first { self.old.names ≡ [] }
        ensures { self.new ≡ record self.old { withheld = true } }
    {
        self.withhold = true;
    }

    /// Whether the bus withholds channel 31.
    pub fn withholds(&self) -> bool
        ensures { result ≡ self.now.withheld }
    {
        self.withhold
    }

    /// What `Cabling::join` would answer of a cable between two ports.
    pub fn check_cable(&self, a: End, b: End) -> Result<(), TreeFault>
        ensures refused { IfErr result (λ f. IsFault self.now.topology a b f) }
        ensures free { OnOk result ((f : TreeFault) → IsFault self.now.topology a b f → ⊥) }
    {
        self.cabling.check(a, b)
    }

    /// Joins two ports of which `check_cable` answers no fault. The nodes stay as they are until a bus reset.
    pub fn join(&mut self, a: End, b: End)
        requires free { (f : TreeFault) → IsFault self.old.topology a b f → ⊥ }
        ensures joined { IsJoined self.old.topology self.new.topology a b }
        ensures same { self.new ≡ record self.old { topology = self.new.topology } }
    {
        self.bus.current = false;
        self.cabling.join_free(a, b);
    }
}
