ghost use Rattle.std.specs.Prelude.{◌≡◌, ◌<◌, ◌≤◌, ◌&&◌, nat_lt, true, take, ℕ, Bool, None, length, slice_index_or, count_by};
ghost use Rattle.fw_tree.specs.Cables.{InRange, peer};
ghost use Rattle.fw_tree.specs.Rounds.{is_open, open_count};
ghost use Rattle.fw_tree.specs.Topology.{AreDevices, ArePlaced, ports_of, are_used, with_cable};

use crate::facts::AllCables;
use crate::{End, PhyFacts};

/// How many ports a device has: none if there is no such device.
pub fn ports_at(facts: &[PhyFacts; 63], count: u8, device: u8) -> u8
    requires count { count ≤ 63 }
    requires devices { AreDevices (take count facts.now) }
    ensures ports { result ≡ ports_of (take count facts.now) device }
    ensures most { result ≤ 27 }
    ensures device { 0 < result → device < 63 }
{
    if device < count {
        facts[device as usize].ports
    } else {
        0
    }
}

/// Both ends are ports of devices.
pub fn have_ports(facts: &[PhyFacts; 63], count: u8, a: End, b: End) -> bool
    requires count { count ≤ 63 }
    requires devices { AreDevices (take count facts.now) }
    ensures a_device { result ≡ true → a.device < 63 }
    ensures a_port { result ≡ true → a.port < 27 }
    ensures b_device { result ≡ true → b.device < 63 }
    ensures b_port { result ≡ true → b.port < 27 }
    ensures has { result ≡ (nat_lt a.port (ports_of (take count facts.now) a.device) && nat_lt b.port (ports_of (take count facts.now) b.device)) }
{
    a.port < ports_at(facts, count, a.device) && b.port < ports_at(facts, count, b.device)
}

/// What is at each port of a device, or of none if there is no such device: after these no cable is.
pub fn cables_of<'a>(g: &'a AllCables, facts: &[PhyFacts; 63], d: usize) -> &'a [Option<End>]
    requires range { InRange g.now }
    requires placed { ArePlaced facts.now g.now }
    requires device { d < 63 }
    ensures ports { (p : ℕ) → slice_index_or result.now p None ≡ peer g.now d p }
    ensures open { (stays : ℕ → Bool) → count_by (is_open stays) result.now ≡ open_count g.now stays d }
    ensures most { length result.now ≤ 27 }
{
    let row = &g[d];
    let ports = usize::from(facts[d].ports);
    if ports < row.len() {
        &row[..ports]
    } else {
        row
    }
}

/// The far end of the cable at a port. None if there is no cable, or no such port.
pub fn peer_at(g: &AllCables, e: End) -> Option<End>
    ensures { result ≡ peer g.now e.device e.port }
{
    match g.get(usize::from(e.device)) {
        Some(row) => match row.get(usize::from(e.port)) {
            Some(cable) => *cable,
            None => None,
        },
        None => None,
    }
}

// Which cable is at a port.
fn cable_at(g: &AllCables, e: End) -> Option<End>
    requires device { e.device < 63 }
    requires port { e.port < 27 }
    ensures { result ≡ peer g.now e.device e.port }
{
    g[e.device as usize][e.port as usize]
}

/// One of the ports has a cable, or both ends are one port.
pub fn are_used(g: &AllCables, a: End, b: End) -> bool
    requires a_device { a.device < 63 }
    requires a_port { a.port < 27 }
    requires b_device { b.device < 63 }
    requires b_port { b.port < 27 }
    ensures { result ≡ are_used g.now a b }
{
    cable_at(g, a).is_some()
        || cable_at(g, b).is_some()
        || (a.device == b.device && a.port == b.port)
}

/// Puts a cable between two ports.
pub fn plug(g: &mut AllCables, a: End, b: End)
    requires a_device { a.device < 63 }
    requires a_port { a.port < 27 }
    requires b_device { b.device < 63 }
    requires b_port { b.port < 27 }
    ensures { g.new ≡ with_cable g.old a b }
{
    g[a.device as usize][a.port as usize] = Some(b);
    g[b.device as usize][b.port as usize] = Some(a);
}
