//! The nodes of a bus reset, with the kinds of their devices at hand.

ghost use Rattle.std.specs.Prelude.{◌≡◌, ◌≤◌, ◌<◌, ◌++◌, OnOk, length, Some, None, is_some, slice_index_or, slice_set, if◌then◌else◌};
ghost use Rattle.fw_holders_text.specs.Kept.{AreKinds};
ghost use Rattle.fw_holders_text.specs.Names.{kind_of_device, who, plug_text};

use crate::names::{Side, put_device, put_register};
use fw_log_entry::{NodeList, NodeRow};
use fw_terms::PlugAt;
use std::alloc::AllocError;
use std::marker::Model;

/// How many devices a byte can name.
const DEVICES: usize = 256;

/// The nodes of a bus reset, and the kind of each device by its number, so that none is looked for. Contracts see them as the nodes.
#[derive(Drop)]
pub(crate) struct BusNodes {
    nodes: NodeList,
    kinds: [Option<u8>; DEVICES],
}

impl Model for BusNodes {
    ghost use Rattle.std.specs.Prelude.{List};
    ghost use Rattle.fw_log_entry.specs.declared.nodes.NodeRow.{NodeRow};
    ghost use Rattle.fw_holders_text.specs.Kept.{AreKinds};

    ghost Value = { List NodeRow };

    ghost view = { λ b. b.nodes };

    ghost invariant = { λ b. AreKinds b.nodes b.kinds };
}

// Keeps the kind of a node's device, if no node before is this device.
fn keep_kind(kinds: &mut [Option<u8>; DEVICES], row: NodeRow)
    ensures device { row.device < 256 }
    ensures kept { kinds.new ≡ (if is_some (slice_index_or kinds.old row.device None) then kinds.old else slice_set kinds.old row.device (Some row.kind)) }
{
    let device = usize::from(row.device);
    if kinds[device].is_none() {
        kinds[device] = Some(row.kind);
    }
}

// The kind of each device: that of the first node that is this device.
fn kinds_of(nodes: &[NodeRow]) -> [Option<u8>; DEVICES]
    ensures { AreKinds nodes.now result }
{
    let mut kinds = [None; DEVICES];
    for row in nodes {
        keep_kind(&mut kinds, *row);
    }
    kinds
}

// The same nodes.
fn same_nodes(nodes: &[NodeRow]) -> NodeList
    requires { length nodes.now ≤ 63 }
    ensures { result ≡ nodes.now }
{
    let mut same = NodeList::new();
    for row in nodes {
        same.push(*row);
    }
    same
}

impl BusNodes {
    /// These nodes.
    pub(crate) fn of(nodes: &[NodeRow]) -> BusNodes
        requires { length nodes.now ≤ 63 }
        ensures { result ≡ nodes.now }
    {
        BusNodes {
            nodes: same_nodes(nodes),
            kinds: kinds_of(nodes),
        }
    }

    /// All nodes, in order of their numbers.
    pub(crate) fn as_slice(&self) -> &[NodeRow]
        ensures { result.now ≡ self.now }
    {
        self.nodes.as_slice()
    }

    // The kind of a device, if it is a node.
    #[inline(always)]
    fn kind_of(&self, device: u8) -> Option<u8>
        ensures { result ≡ kind_of_device self.now device }
    {
        self.kinds[usize::from(device)]
    }

    /// Appends a device: what it is, and its number.
    #[tactic(auto, unfolding(crate::specs::Names::who))]
    pub(crate) fn put_who(&self, text: &mut Vec<u8>, device: u8) -> Result<(), AllocError>
        ensures { OnOk result (text.new.items ≡ text.old.items ++ who self.now device) }
    {
        put_device(text, self.kind_of(device), device)
    }

    /// Appends a plug: its device, and its register.
    #[tactic(auto, unfolding(crate::specs::Names::plug_text))]
    pub(crate) fn put_plug(
        &self,
        text: &mut Vec<u8>,
        side: Side,
        p: PlugAt,
    ) -> Result<(), AllocError>
        ensures { OnOk result (text.new.items ≡ text.old.items ++ plug_text self.now side p) }
    {
        self.put_who(text, p.device)?;
        put_register(text, side, p.plug)
    }
}
