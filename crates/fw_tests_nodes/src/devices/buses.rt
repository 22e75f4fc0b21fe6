//! Buses that are built, and what is asserted of them.

ghost use Rattle.std.specs.Prelude.{◌≡◌, ◌<◌, ◌+◌, ℕ};
ghost use Rattle.fw_tree.specs.Cables.{IsOnBus};

use fw_devices::Devices;
use fw_phy::read_phy;
use fw_script_command::Name;
use fw_terms::DeviceKind;
use fw_tree::End;
use std::process::Abort;
use std::test::Fail;

/// A device's name, kind, ports, and speed code.
pub type Declared<'a> = (&'a [u8], DeviceKind, u8, u8);

/// A port of a device: the device and its port.
pub type Port = (u8, u8);

/// The name that a word is.
pub fn name_of(rt: &impl Abort, word: &[u8]) -> Name {
    match Name::from_word(word) {
        Some(name) => name,
        None => panic!(rt; "no name"),
    }
}

/// Declares a device.
pub fn declare(rt: &impl Abort, devices: &mut Devices, declared: Declared) {
    let (word, kind, ports, speed) = declared;
    assert!(rt; devices.count() < 63);
    assert!(rt; 1 <= ports && ports <= 27 && speed <= 2);
    devices.add(&name_of(rt, word), kind, ports, speed);
}

/// These devices, without a cable.
pub fn devices(rt: &(impl Abort + AllocGlobal), all: &[Declared]) -> Result<Devices, Fail> {
    let mut devices = Devices::new(rt.alloc())?;
    for declared in all {
        declare(rt, &mut devices, *declared);
    }
    Ok(devices)
}

/// A bus reset that a device of the bus begins.
pub fn reset(rt: &impl Abort, devices: &mut Devices, initiator: u8)
    requires { IsOnBus devices.old.topology.cables initiator }
    ensures { devices.new.topology ≡ devices.old.topology }
{
    assert!(rt; initiator < devices.count());
    assert!(rt; devices.epoch() < 1000);
    devices.reset(initiator);
}

/// Joins two ports, the first of a device of the bus, which begins a bus reset.
pub fn connect(rt: &impl Abort, devices: &mut Devices, a: Port, b: Port)
    requires { IsOnBus devices.old.topology.cables a.0 }
    ensures reached { IsOnBus devices.new.topology.cables b.0 }
    ensures kept { (d : ℕ) → IsOnBus devices.old.topology.cables d → IsOnBus devices.new.topology.cables d }
{
    let first = End {
        device: a.0,
        port: a.1,
    };
    let second = End {
        device: b.0,
        port: b.1,
    };
    assert!(rt; first.device < devices.count());
    match devices.check_cable(first, second) {
        Ok(()) => {}
        Err(fault) => panic!(rt; "{fault} at port {} of device {}", a.1, a.0),
    }
    devices.join(first, second);
    reset(rt, devices, first.device);
}

/// The same from a port of device 0.
pub fn connect_first(rt: &impl Abort, devices: &mut Devices, port: u8, b: Port)
    ensures reached { IsOnBus devices.new.topology.cables b.0 }
    ensures kept { (d : ℕ) → IsOnBus devices.old.topology.cables d → IsOnBus devices.new.topology.cables d }
{
    connect(rt, devices, (0, port), b);
}

/// Each device's number, 63 if it is no node.
pub fn numbers_are(rt: &impl Abort, devices: &Devices, numbers: &[u8]) {
    assert!(rt; usize::from(devices.count()) == numbers.len());
    for d in 0..devices.count() {
        let number = match devices.node(d) {
            Some(node) => node.number().unwrap_or(63),
            None => 63,
        };
        assert!(rt; number == numbers[usize::from(d)], "number of {d}");
    }
}

/// What the entry of the latest bus reset says: the devices of the nodes, in order, and the first quadlets of the self-ID packets.
pub fn latest_is(rt: &impl Abort, devices: &Devices, nodes: &[u8], quadlets: &[u32]) {
    let latest = devices.latest();
    let rows = latest.get().nodes.as_slice();
    assert!(rt; rows.len() == nodes.len(), "nodes");
    for (row, device) in rows.iter().zip(nodes) {
        assert!(rt; row.device == *device);
    }
    let packets = latest.get().ids.as_slice();
    assert!(rt; packets.len() == quadlets.len(), "packets");
    for (packet, quadlet) in packets.iter().zip(quadlets) {
        let [a, b, c, d] = quadlet.to_be_bytes();
        let bytes = [a, b, c, d, !a, !b, !c, !d];
        assert!(rt; read_phy(&bytes) == Ok(*packet), "{quadlet:08X}");
    }
}
