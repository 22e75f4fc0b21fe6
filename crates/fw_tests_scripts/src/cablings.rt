//! Cablings that are built, and what is asserted of them.

ghost use Rattle.std.specs.Prelude.{◌≡◌, ◌+◌, ◌<◌, ◌≤◌, length};
ghost use Rattle.fw_tree.specs.Numbering.{IsNumbering};

use fw_phy::{SelfIds, read_phy};
use fw_tree::{Cabling, End, Numbering, PhyFacts, TreeFault, devices_of};
use std::process::Abort;

/// What a device is: its ports, speed code, whether its link is active, and whether it contends.
pub type Facts = (u8, u8, bool, bool);

/// A port of a device: the device and its port.
pub type Port = (u8, u8);

pub type Cable = (Port, Port);

fn end(port: Port) -> End {
    End {
        device: port.0,
        port: port.1,
    }
}

/// What a device is, which it can be.
pub fn facts(rt: &impl Abort, facts: Facts) -> PhyFacts
    ensures some { 0 < result.ports }
    ensures most { result.ports ≤ 27 }
    ensures speed { result.speed ≤ 2 }
{
    let (ports, speed, link, contender) = facts;
    assert!(rt; ports > 0 && ports <= 27 && speed <= 2);
    PhyFacts {
        ports,
        speed,
        link,
        contender,
    }
}

fn declare(rt: &impl Abort, cabling: &mut Cabling, device: Facts)
    ensures { length cabling.new.devices ≡ length cabling.old.devices + 1 }
{
    match cabling.add(facts(rt, device)) {
        Ok(_) => {}
        Err(_) => panic!(rt; "too many devices"),
    }
}

fn cable(rt: &impl Abort, cabling: &mut Cabling, a: Port, b: Port)
    ensures { length cabling.new.devices ≡ length cabling.old.devices }
{
    match cabling.join(end(a), end(b)) {
        Ok(()) => {}
        Err(fault) => panic!(rt; "{fault} at {a:?}, {b:?}"),
    }
}

/// These devices, joined by these cables.
pub fn bus(rt: &impl Abort, devices: &[Facts], cables: &[Cable]) -> Cabling
    ensures { 0 < length result.devices }
{
    assert!(rt; devices.len() > 0);
    let mut cabling = Cabling::new();
    for device in devices {
        declare(rt, &mut cabling, *device);
    }
    for (a, b) in cables {
        cable(rt, &mut cabling, *a, *b);
    }
    cabling
}

/// The root, the manager, and each device's number, 63 if it is off.
pub fn identified(rt: &impl Abort, cabling: &Cabling, root: u8, manager: Option<u8>, numbers: &[u8])
    requires { 0 < length cabling.now.devices }
{
    let numbering = cabling.identify();
    assert!(rt; numbering.root == root, "root");
    let devices = devices_of(&numbering.number, numbering.count);
    assert!(rt; cabling.manager(&numbering, &devices) == manager, "manager");
    for d in 0..63 {
        let number = if d < numbers.len() && numbers[d] < 63 {
            Some(numbers[d])
        } else {
            None
        };
        assert!(rt; numbering.number[d] == number, "number of {d}");
    }
}

fn packets(rt: &impl Abort, cabling: &Cabling, numbering: &Numbering, initiator: u8) -> SelfIds
    requires { IsNumbering cabling.now numbering.now }
{
    assert!(rt; initiator < 63 && numbering.number[initiator as usize].is_some());
    let mut out = SelfIds::new();
    let devices = devices_of(&numbering.number, numbering.count);
    cabling.self_ids(numbering, &devices, initiator, &mut out);
    out
}

/// The first quadlets of all self-ID packets.
pub fn self_ids_are(rt: &impl Abort, cabling: &Cabling, initiator: u8, quadlets: &[u32])
    requires { 0 < length cabling.now.devices }
{
    let ids = packets(rt, cabling, &cabling.identify(), initiator);
    let packets = ids.as_slice();
    assert!(rt; packets.len() == quadlets.len(), "packets");
    for (packet, quadlet) in packets.iter().zip(quadlets) {
        let [a, b, c, d] = quadlet.to_be_bytes();
        assert!(rt;
            read_phy(&[a, b, c, d, !a, !b, !c, !d]) == Ok(*packet),
            "{quadlet:08X}"
        );
    }
}

/// The cable is refused, and nothing changes.
pub fn refused(rt: &impl Abort, cabling: &mut Cabling, a: Port, b: Port, fault: TreeFault)
    requires { 0 < length cabling.old.devices }
{
    let before = cabling.identify();
    match cabling.join(end(a), end(b)) {
        Ok(()) => panic!(rt; "joined {a:?}, {b:?}"),
        Err(found) => assert!(rt; found == fault, "{a:?}, {b:?}"),
    }
    assert!(rt; cabling.identify() == before, "after {a:?}, {b:?}");
}
