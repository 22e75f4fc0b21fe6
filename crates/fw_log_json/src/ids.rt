//! The objects of self-ID packets.

ghost use Rattle.std.specs.Prelude.{◌≡◌, ◌++◌, OnOk, map};
ghost use Rattle.fw_phy.specs.declared.packet.PhyPacket.TheVariants.{SelfId as Zero, SelfIdMore as Further};
ghost use Rattle.fw_log_json_packets.specs.Values.{array};
ghost use Rattle.fw_log_json.specs.Ids.{port_numbers, port_names, port_fields, id_object};

use crate::values::{put_code, put_comma, put_count, put_flag, put_name_value};
use fw_log_names::{port_name, put_number, put_word, speed_name};
use fw_phy::{PhyPacket, SelfId, SelfIdMore};
use std::alloc::AllocError;

// Appends the numbers of ports in an array.
fn put_port_numbers(text: &mut Vec<u8>, ports: &[u8]) -> Result<(), AllocError>
    ensures { OnOk result (text.new.items ≡ text.old.items ++ port_numbers ports.now) }
{
    put_word(text, "[")?;
    for place in 0..ports.len() {
        put_comma(text, place)?;
        put_number(text, u64::from(ports[place]))?;
    }
    put_word(text, "]")
}

// Appends the names of ports in an array.
fn put_port_names(text: &mut Vec<u8>, ports: &[u8]) -> Result<(), AllocError>
    ensures { OnOk result (text.new.items ≡ text.old.items ++ port_names ports.now) }
{
    put_word(text, "[")?;
    for place in 0..ports.len() {
        put_comma(text, place)?;
        put_name_value(text, port_name(ports[place]))?;
    }
    put_word(text, "]")
}

fn put_ports(text: &mut Vec<u8>, ports: &[u8]) -> Result<(), AllocError>
    ensures { OnOk result (text.new.items ≡ text.old.items ++ port_fields ports.now) }
{
    put_word(text, r#","port_status":"#)?;
    put_port_numbers(text, ports)?;
    put_word(text, r#","port_status_name":"#)?;
    put_port_names(text, ports)
}

fn put_zero(text: &mut Vec<u8>, s: &SelfId) -> Result<(), AllocError>
    ensures { OnOk result (text.new.items ≡ text.old.items ++ id_object (Zero s.now)) }
{
    put_count(text, r#"{"phy_id":"#, u64::from(s.phy))?;
    put_flag(text, r#","extended":"#, false)?;
    put_flag(text, r#","link_active":"#, s.link)?;
    put_count(text, r#","gap_count":"#, u64::from(s.gap))?;
    let speed = speed_name(s.speed);
    put_code(
        text,
        r#","scode":"#,
        u64::from(s.speed),
        r#","scode_name":"#,
        speed,
    )?;
    put_count(text, r#","delay":"#, u64::from(s.delay))?;
    put_flag(text, r#","contender":"#, s.contender)?;
    put_count(text, r#","power_class":"#, u64::from(s.power))?;
    put_flag(text, r#","initiated_reset":"#, s.initiator)?;
    put_flag(text, r#","more_packets":"#, s.more)?;
    put_ports(text, &s.ports)?;
    put_word(text, "}")
}

fn put_further(text: &mut Vec<u8>, s: &SelfIdMore) -> Result<(), AllocError>
    ensures { OnOk result (text.new.items ≡ text.old.items ++ id_object (Further s.now)) }
{
    put_count(text, r#"{"phy_id":"#, u64::from(s.phy))?;
    put_flag(text, r#","extended":"#, true)?;
    put_count(text, r#","sequence":"#, u64::from(s.number))?;
    put_flag(text, r#","more_packets":"#, s.more)?;
    put_ports(text, &s.ports)?;
    put_word(text, "}")
}

fn put_id(text: &mut Vec<u8>, p: &PhyPacket) -> Result<(), AllocError>
    ensures { OnOk result (text.new.items ≡ text.old.items ++ id_object p.now) }
{
    match p {
        PhyPacket::SelfId(zero) => put_zero(text, zero),
        PhyPacket::SelfIdMore(further) => put_further(text, further),
        PhyPacket::Config { .. } => put_word(text, "{}"),
        PhyPacket::LinkOn { .. } => put_word(text, "{}"),
    }
}

// Appends the objects of self-ID packets in an array.
pub(crate) fn put_ids(text: &mut Vec<u8>, ids: &[PhyPacket]) -> Result<(), AllocError>
    ensures { OnOk result (text.new.items ≡ text.old.items ++ array (map id_object ids.now)) }
{
    put_word(text, "[")?;
    for place in 0..ids.len() {
        put_comma(text, place)?;
        put_id(text, &ids[place])?;
    }
    put_word(text, "]")
}
