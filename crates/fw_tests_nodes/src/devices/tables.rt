use super::buses::*;
use fw_async::{Head, Packet};
use fw_csr::{BANDWIDTH_AVAILABLE, Reply};
use fw_devices::Devices;
use fw_plug::OPCR;
use fw_terms::DeviceKind;
use std::process::Abort;
use std::test::Fail;

// A computer between a camcorder and two decks:
//
//     cam 0---0 pc 1---0 left 1---0 right
//
// pc is device 0, cam 1, left 2, right 3.
const FOUR: [Declared<'static>; 4] = [
    (b"pc", DeviceKind::Computer, 3, 2),
    (b"cam", DeviceKind::Camcorder, 1, 0),
    (b"left", DeviceKind::Deck, 2, 0),
    (b"right", DeviceKind::Deck, 1, 0),
];

#[test]
fn bus_resets_show_the_bus(rt: HostRuntime) -> Result<(), Fail> {
    let mut devices = devices(&rt, &FOUR)?;
    numbers_are(&rt, &devices, &[63, 63, 63, 63]);
    latest_is(&rt, &devices, &[], &[]);
    connect_first(&rt, &mut devices, 0, (1, 0));
    numbers_are(&rt, &devices, &[0, 1, 63, 63]);
    latest_is(&rt, &devices, &[0, 1], &[0x807F_8896, 0x817F_00C0]);
    assert!(rt; devices.manager() == Some(0));

    connect_first(&rt, &mut devices, 1, (2, 0));
    connect(&rt, &mut devices, (2, 1), (3, 0));
    numbers_are(&rt, &devices, &[1, 0, 3, 2]);
    latest_is(
        &rt,
        &devices,
        &[1, 0, 3, 2],
        &[0x807F_0080, 0x817F_88E4, 0x827F_0880, 0x837F_08F2],
    );
    assert!(rt; devices.manager() == Some(2));

    // Of the same cables another device begins a bus reset: bit 30 moves from node 3 to node 1.
    reset(&rt, &mut devices, 0);
    latest_is(
        &rt,
        &devices,
        &[1, 0, 3, 2],
        &[0x807F_0080, 0x817F_88E6, 0x827F_0880, 0x837F_08F0],
    );
    let latest = devices.latest();
    assert!(rt; latest.get().epoch == 4);
    assert!(rt; latest.get().root == 3);
    assert!(rt; latest.get().manager == Some(3));
    assert!(rt; latest.get().initiator == 1);
    Ok(())
}

#[test]
fn the_first_of_a_name_is_found(rt: HostRuntime) -> Result<(), Fail> {
    let mut devices = devices(&rt, &FOUR)?;
    declare(&rt, &mut devices, (b"left", DeviceKind::Relay, 1, 0));
    assert!(rt; devices.count() == 5);
    let found: [(&[u8], Option<u8>); 3] = [(b"pc", Some(0)), (b"left", Some(2)), (b"lef", None)];
    for (word, device) in found {
        assert!(rt; devices.find(&name_of(&rt, word)) == device);
    }
    Ok(())
}

/// A quadlet read of BANDWIDTH_AVAILABLE that node 1 sends to node 3.
const REQUEST: Packet = Packet::ReadQuadlet {
    head: Head {
        destination: 0xFFC3,
        tl: 5,
        rt: 1,
        pri: 0,
        source: 0xFFC1,
    },
    offset: BANDWIDTH_AVAILABLE,
};

fn answer(rt: &impl Abort, devices: &mut Devices, device: u8, packet: &Packet) -> Packet<'static> {
    assert!(rt; matches!(packet, Packet::ReadQuadlet { .. }));
    assert!(rt; device < devices.count());
    assert!(rt; devices.number(device).is_some());
    assert!(rt; devices.kind(device).has_link());
    devices.answer(device, 0, packet)
}

/// Whether a packet is the response, which shows 4915 units.
fn is_response(packet: &Packet) -> bool {
    matches!(
        packet,
        Packet::ReadQuadletReply {
            head: Head {
                destination: 0xFFC1,
                tl: 5,
                rt: 1,
                pri: 0,
                source: 0xFFC3,
            },
            rcode: 0,
            value: 4915,
        }
    )
}

fn read(rt: &impl Abort, devices: &Devices, device: u8, offset: u64) -> Reply {
    assert!(rt; device < devices.count());
    assert!(rt; devices.number(device).is_some());
    devices.read(device, 0, offset)
}

#[test]
fn nodes_answer(rt: HostRuntime) -> Result<(), Fail> {
    let mut devices = devices(&rt, &FOUR)?;
    connect_first(&rt, &mut devices, 0, (1, 0));
    connect_first(&rt, &mut devices, 1, (2, 0));
    connect(&rt, &mut devices, (2, 1), (3, 0));
    assert!(rt; is_response(&answer(&rt, &mut devices, 2, &REQUEST)));
    assert!(rt; read(&rt, &devices, 2, BANDWIDTH_AVAILABLE) == Reply::complete(4915));
    assert!(rt; read(&rt, &devices, 0, BANDWIDTH_AVAILABLE) == Reply::address_error());
    assert!(rt; read(&rt, &devices, 2, OPCR) == Reply::complete(0x803F_007A));
    devices.second_over();
    assert!(rt; read(&rt, &devices, 3, OPCR) == Reply::complete(0x803F_007A));
    Ok(())
}
