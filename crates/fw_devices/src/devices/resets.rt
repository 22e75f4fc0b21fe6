//! Bus resets.

ghost use Rattle.std.specs.Prelude.{◌≡◌, ◌+◌, ◌<◌, ◌≤◌, ◌^◌, ℕ, Some, IfSome, length};
ghost use Rattle.fw_log_entry.specs.Log.{ResetFits};
ghost use Rattle.fw_tree.specs.Cables.{IsOnBus};
ghost use Rattle.fw_tree.specs.Numbers.{number_at};
ghost use Rattle.fw_devices.specs.Entries.{node_device};
ghost use Rattle.fw_devices.specs.Network.{node_at};
ghost use Rattle.fw_devices.specs.Resets.{IsReset, numbered};

use super::Devices;
use crate::bus::find;
use fw_log_entry::BorrowedReset;
use fw_node::Node;
use fw_tree::Numbering;

// A bus reset for one device, which has this number if it is on the bus.
fn reset_node(node: &mut Node, number: Option<u8>, manager: Option<u8>)
    requires { IfSome number (λ n. n ≤ 62) }
    ensures { node.new ≡ numbered number manager node.old }
{
    if let Some(number) = number {
        node.reset(number, manager == Some(number));
    }
}

// A bus reset for each device. The manager is given by its number.
fn reset_nodes(nodes: &mut [Node], numbering: &Numbering, manager: Option<u8>)
    requires few { length nodes.old ≤ 63 }
    requires range { (d n : ℕ) → number_at numbering.now.number d ≡ Some n → n ≤ 62 }
    ensures size { length nodes.new ≡ length nodes.old }
    ensures nodes { (d : ℕ) → d < length nodes.old → node_at nodes.new d ≡ numbered (number_at numbering.now.number d) manager (node_at nodes.old d) }
{
    for (d, node) in nodes.iter_mut().enumerate() {
        reset_node(node, numbering.number[d], manager);
    }
}

impl Devices {
    /// A bus reset that a device of the bus begins; `latest` lends its entry. The devices of the bus, the part that is connected
    /// with device 0 (own), are its nodes: each has its number, its plugs are not connected, and the manager's registers
    /// have their initial values. A device that is off the bus stays as it is.
    ///
    /// The tree is identified once for each change of devices and cables, and not for each bus reset.
    pub fn reset(&mut self, initiator: u8)
        requires declared { initiator < length self.old.nodes }
        requires on { IsOnBus self.old.topology.cables initiator }
        requires few { self.old.epoch + 1 < 2 ^ 32 }
        ensures reset { IsReset self.old self.new initiator self.new.latest }
        ensures fits { ResetFits self.new.latest }
    {
        find(&self.cabling, &self.nodes, &mut self.bus);
        self.bus.begin(initiator);
        reset_nodes(&mut self.nodes, &self.bus.numbering, self.bus.entry.manager);
    }

    /// The entry of the latest bus reset, by which node numbers and devices lead to each other. Before the first its epoch
    /// is 0 and it has no nodes.
    pub fn latest(&self) -> BorrowedReset<'_>
        ensures { result ≡ self.now.latest }
    {
        BorrowedReset::new(&self.bus.entry)
    }

    /// The device that is the node with this number. None if no node has it.
    pub fn device_at(&self, number: u8) -> Option<u8>
        ensures { result ≡ node_device self.now.latest.nodes number }
    {
        let row = self
            .latest()
            .get()
            .nodes
            .as_slice()
            .get(usize::from(number))?;
        Some(row.device)
    }
}
