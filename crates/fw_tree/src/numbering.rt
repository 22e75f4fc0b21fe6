ghost use Rattle.std.specs.Prelude.{◌≡◌, ◌<◌, ◌≤◌, ◌&&◌, ℕ, Some, length, true};
ghost use Rattle.fw_tree.specs.Numbers.{AreNodes, device_at, has_number, number_at};

use crate::PhyFacts;

/// Who is who on the bus. The lists are indexed by device.
#[derive(Clone, Copy, PartialEq, Eq)]
pub struct Numbering {
    /// The device that is root.
    pub root: u8,
    /// How many devices are on the bus.
    pub count: u8,
    /// Each device's node number; None off the bus.
    pub number: [Option<u8>; 63],
    /// The port at which each device's parent is; None off the bus and for the root.
    pub parent_port: [Option<u8>; 63],
}

/// The device of each node, by the numbers of a numbering that gives `count` of them: the other half of their two-way map.
/// Places after the last node have no meaning.
pub fn devices_of(number: &[Option<u8>; 63], count: u8) -> [u8; 63]
    requires nodes { AreNodes number.now count }
    requires few { count ≤ 63 }
    ensures size { length result ≡ 63 }
    ensures devices { (n : ℕ) → n < count → number_at number.now (device_at result n) ≡ Some n }
    ensures range { (n : ℕ) → n < count → device_at result n < 63 }
{
    let mut devices = [0; 63];
    for d in 0..63 {
        if let Some(n) = number[d] {
            devices[usize::from(n)] = d as u8;
        }
    }
    devices
}

/// The number of a device of the bus, by a numbering.
pub fn number_of(numbering: &Numbering, device: u8) -> u8
    requires device { device < 63 }
    requires on { has_number numbering.now.number device ≡ true }
    ensures { number_at numbering.now.number device ≡ Some result }
{
    match numbering.number[usize::from(device)] {
        Some(number) => number,
        None => unreachable!(),
    }
}

/// The device may become manager: it has a link and contends.
pub fn contends(facts: &PhyFacts) -> bool
    ensures { result ≡ (facts.now.link && facts.now.contender) }
{
    facts.link && facts.contender
}
