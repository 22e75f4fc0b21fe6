ghost use Rattle.std.specs.Prelude.{◌≡◌, ◌<◌, ◌≤◌, ℕ, [], Some, length, IfErr, IfOk, OnOk};
ghost use Rattle.std.specs.List.{All};
ghost use Rattle.fw_phy.specs.Phy.{Fits};
ghost use Rattle.fw_tree.specs.declared.TreeFault.{TreeFault};
ghost use Rattle.fw_tree.specs.declared.numbering.Numbering.{Numbering};
ghost use Rattle.fw_tree.specs.Cables.{IsOnBus, peer};
ghost use Rattle.fw_tree.specs.Numbering.{IsNumbering, IsSame, IsManager};
ghost use Rattle.fw_tree.specs.Numbers.{device_at, number_at};
ghost use Rattle.fw_tree.specs.SelfIds.{ArePackets};
ghost use Rattle.fw_tree.specs.Topology.{IsExtended, IsFault, IsJoined, Made, no_cables, ports_of};

use crate::facts::AllCables;
use crate::numbering::contends;
use crate::numbers::{numbered, numbers_from, parent_ports};
use crate::ports::{are_used, have_ports, peer_at, plug, ports_at};
use crate::root::find_root;
use crate::rounds::parents;
use crate::self_ids::push_node;
use crate::walk::are_connected;
use crate::{End, Numbering, PhyFacts, TreeFault};
use fw_phy::SelfIds;
use std::marker::Model;

/// Devices, and the cables between their ports.
#[derive(Drop)]
pub struct Cabling {
    pub(crate) facts: [PhyFacts; 63],
    pub(crate) count: u8,
    pub(crate) cables: AllCables,
}

impl Model for Cabling {
    ghost use Rattle.std.specs.Prelude.{take};
    ghost use Rattle.fw_tree.specs.Topology.{Topology, IsKept};

    ghost Value = { Topology };

    ghost view = { λ c. record { devices = take c.count c.facts; cables = c.cables } };

    ghost invariant = { λ c. IsKept c.facts c.count c.cables };
}

impl Cabling {
    /// No device is there.
    pub fn new() -> Self
        ensures empty { result ≡ record { devices = []; cables = no_cables } }
        ensures made { Made result }
    {
        Cabling {
            facts: [PhyFacts {
                ports: 1,
                speed: 0,
                link: false,
                contender: false,
            }; 63],
            count: 0,
            cables: [[None; 27]; 63],
        }
    }

    /// Adds a device, and answers its number. It has 1 to 27 ports and a speed of at most 2.
    ///
    /// `TooMany` comes exactly if 63 devices are there; then nothing changes.
    pub fn add(&mut self, facts: PhyFacts) -> Result<u8, TreeFault>
        requires some { 0 < facts.ports }
        requires most { facts.ports ≤ 27 }
        requires speed { facts.speed ≤ 2 }
        ensures refused { IfErr result (λ f. (f ≡ TreeFault.TooMany) × (length self.old.devices ≡ 63) × (self.new ≡ self.old)) }
        ensures added { IfOk result (λ n. (n ≡ length self.old.devices) × IsExtended self.old self.new facts) }
        ensures made { Made self.new }
    {
        if self.count >= 63 {
            return Err(TreeFault::TooMany);
        }
        let number = self.count;
        self.facts[number as usize] = facts;
        self.count += 1;
        Ok(number)
    }

    /// How many ports a device has: none if there is no such device.
    pub fn ports(&self, device: u8) -> u8
        ensures { result ≡ ports_of self.now.devices device }
    {
        ports_at(&self.facts, self.count, device)
    }

    /// The other end of the cable at a port. None if there is no cable, or no such port.
    pub fn peer(&self, end: End) -> Option<End>
        ensures { result ≡ peer self.now.cables end.device end.port }
    {
        peer_at(&self.cables, end)
    }

    /// What `join` would answer of these two ports.
    ///
    /// The first fault that holds is answered: `NoPort` if one of the devices has no such port, `PortUsed` if
    /// one of the ports has a cable or both ends are one port, `Loop` if a walk of cables leads from the one device
    /// to the other already, or they are one. `TooMany` is never answered.
    pub fn check(&self, a: End, b: End) -> Result<(), TreeFault>
        ensures refused { IfErr result (λ f. IsFault self.now a b f) }
        ensures free { OnOk result ((f : TreeFault) → IsFault self.now a b f → ⊥) }
    {
        if !have_ports(&self.facts, self.count, a, b) {
            return Err(TreeFault::NoPort);
        }
        if are_used(&self.cables, a, b) {
            return Err(TreeFault::PortUsed);
        }
        if are_connected(&self.cables, &self.facts, a.device, b.device) {
            return Err(TreeFault::Loop);
        }
        Ok(())
    }

    /// Joins two ports by a cable. If `check` answers a fault of them, that is answered, and nothing changes.
    pub fn join(&mut self, a: End, b: End) -> Result<(), TreeFault>
        ensures refused { IfErr result (λ f. IsFault self.old a b f × (self.new ≡ self.old)) }
        ensures joined { IfOk result (λ _. IsJoined self.old self.new a b) }
        ensures made { Made self.new }
    {
        self.check(a, b)?;
        plug(&mut self.cables, a, b);
        Ok(())
    }

    /// Joins two ports of which `check` answers no fault, without a look at them.
    pub fn join_free(&mut self, a: End, b: End)
        requires { (f : TreeFault) → IsFault self.old a b f → ⊥ }
        ensures joined { IsJoined self.old self.new a b }
        ensures made { Made self.new }
    {
        plug(&mut self.cables, a, b);
    }

    /// Identifies the tree and numbers the nodes of the bus, the part that is connected with device 0 (own). A device
    /// is there.
    ///
    /// In a round each device that has exactly one cable to a device that has not left leaves, and that neighbour is
    /// its parent; the one that never leaves is root. Of two that leave towards each other in one round the one
    /// declared later is root (own). A device's children have their numbers in order of their ports, each with its
    /// whole branch, before the device itself (IEEE 1394-1995, tree identification and self-identification).
    pub fn identify(&self) -> Numbering
        requires { 0 < length self.now.devices }
        ensures numbering { IsNumbering self.now result }
        ensures only { (n : Numbering) → IsNumbering self.now n → IsSame result n }
        ensures made { Made self.now }
    {
        let parents = parents(&self.cables, &self.facts, self.count);
        let root = find_root(&self.cables, &parents);
        let number = numbers_from(&self.cables, &self.facts, &parents, root);
        Numbering {
            root,
            count: numbered(&number),
            number,
            parent_port: parent_ports(&number, &parents),
        }
    }

    /// The isochronous resource manager: the device with link and contender whose number is greatest, or None.
    /// `n` is this cabling's numbering, and `devices` has the device of each of its nodes (`devices_of`).
    pub fn manager(&self, n: &Numbering, devices: &[u8; 63]) -> Option<u8>
        requires numbering { IsNumbering self.now n.now }
        requires devices { (k : ℕ) → k < n.now.count → number_at n.now.number (device_at devices.now k) ≡ Some k }
        requires range { (k : ℕ) → k < n.now.count → device_at devices.now k < 63 }
        ensures { IsManager self.now.devices n.now.number result }
    {
        let mut manager = None;
        for node in 0..n.count {
            let device = devices[node as usize];
            if contends(&self.facts[device as usize]) {
                manager = Some(device);
            }
        }
        manager
    }

    /// Replaces `out` by the self-ID packets of all nodes, in order of node: for each the fewest that hold its
    /// ports. `n` is this cabling's numbering, `devices` has the device of each of its nodes (`devices_of`), and the initiator,
    /// the device that began the bus reset, is on the bus.
    pub fn self_ids(&self, n: &Numbering, devices: &[u8; 63], initiator: u8, out: &mut SelfIds)
        requires numbering { IsNumbering self.now n.now }
        requires devices { (k : ℕ) → k < n.now.count → number_at n.now.number (device_at devices.now k) ≡ Some k }
        requires range { (k : ℕ) → k < n.now.count → device_at devices.now k < 63 }
        requires initiator { IsOnBus self.now.cables initiator }
        ensures packets { ArePackets self.now.devices self.now.cables n.now.number n.now.parent_port initiator n.now.count out.new }
        ensures fit { All Fits out.new }
    {
        out.clear();
        for node in 0..n.count {
            let device = devices[node as usize];
            push_node(
                &self.facts[device as usize],
                &self.cables[device as usize],
                n.parent_port[device as usize],
                node,
                device == initiator,
                out,
            );
        }
    }
}
