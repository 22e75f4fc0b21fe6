ghost use Rattle.std.specs.Prelude.{◌≡◌, ◌<◌, ◌≤◌, ◌+◌, ◌++◌, length};
ghost use Rattle.fw_tree.specs.SelfIds.{port_code, first_packet, first_port, more_packet, further_packet, node_packets};

use crate::facts::DeviceCables;
use crate::{End, PhyFacts};
use fw_phy::{PhyPacket, SelfId, SelfIdMore, SelfIds};

// 3 to a child, 2 to the parent, 1 if no cable is, 0 if the device has no such port.
fn port_code(ports: u8, cables: &DeviceCables, parent: Option<u8>, p: u8) -> u8
    requires { p < 27 }
    ensures { result ≡ port_code ports cables.now parent p }
{
    if p >= ports {
        return 0;
    }
    match cables[p as usize] {
        Some(_) => match parent {
            Some(q) => if p == q { 2 } else { 3 },
            None => 3,
        },
        None => 1,
    }
}

fn first_packet(
    facts: &PhyFacts,
    cables: &DeviceCables,
    parent: Option<u8>,
    phy: u8,
    initiator: bool,
) -> PhyPacket
    ensures { result ≡ first_packet facts.now cables.now parent phy initiator }
{
    PhyPacket::SelfId(SelfId {
        phy,
        link: facts.link,
        gap: 63,
        speed: facts.speed,
        delay: 0,
        contender: facts.contender,
        power: 0,
        ports: [
            port_code(facts.ports, cables, parent, 0),
            port_code(facts.ports, cables, parent, 1),
            port_code(facts.ports, cables, parent, 2),
        ],
        initiator,
        more: facts.ports > 3,
    })
}

// The first of the eight ports that an extended packet holds.
fn first_port(number: u8) -> u8
    requires { number ≤ 2 }
    ensures { result ≡ first_port number }
{
    3 + 8 * number
}

fn more_packet(
    facts: &PhyFacts,
    cables: &DeviceCables,
    parent: Option<u8>,
    phy: u8,
    number: u8,
) -> PhyPacket
    requires { number ≤ 2 }
    ensures { result ≡ more_packet facts.now cables.now parent phy number }
{
    let at = first_port(number);
    PhyPacket::SelfIdMore(SelfIdMore {
        phy,
        number,
        ports: [
            port_code(facts.ports, cables, parent, at),
            port_code(facts.ports, cables, parent, at + 1),
            port_code(facts.ports, cables, parent, at + 2),
            port_code(facts.ports, cables, parent, at + 3),
            port_code(facts.ports, cables, parent, at + 4),
            port_code(facts.ports, cables, parent, at + 5),
            port_code(facts.ports, cables, parent, at + 6),
            port_code(facts.ports, cables, parent, at + 7),
        ],
        more: facts.ports > at + 8,
    })
}

// Appends an extended packet, if the device has the port at which it begins.
fn push_further(
    facts: &PhyFacts,
    cables: &DeviceCables,
    parent: Option<u8>,
    phy: u8,
    number: u8,
    out: &mut SelfIds,
)
    requires number { number ≤ 2 }
    requires room { length out.old < 252 }
    ensures packets { out.new ≡ out.old ++ further_packet facts.now cables.now parent phy number }
    ensures size { length out.new ≤ length out.old + 1 }
{
    if first_port(number) < facts.ports {
        out.push(more_packet(facts, cables, parent, phy, number));
    }
}

/// Appends the packets of one node: the fewest that hold its ports.
pub fn push_node(
    facts: &PhyFacts,
    cables: &DeviceCables,
    parent: Option<u8>,
    phy: u8,
    initiator: bool,
    out: &mut SelfIds,
)
    requires { length out.old ≤ 248 }
    ensures packets { out.new ≡ out.old ++ node_packets facts.now cables.now parent phy initiator }
    ensures size { length out.new ≤ length out.old + 4 }
{
    out.push(first_packet(facts, cables, parent, phy, initiator));
    if facts.ports > 3 {
        push_further(facts, cables, parent, phy, 0, out);
        push_further(facts, cables, parent, phy, 1, out);
        push_further(facts, cables, parent, phy, 2, out);
    }
}
