//! The fields of a reset.

ghost use Rattle.std.specs.Prelude.{◌≡◌, ◌++◌, OnOk};
ghost use Rattle.fw_log_json_packets.specs.Values.{array};
ghost use Rattle.fw_log_json.specs.Ids.{node_object, node_objects};
ghost use Rattle.fw_log_json.specs.Objects.{list_fields, later_fields, reset_fields};

use crate::ids::put_ids;
use crate::values::{put_code, put_comma, put_count, put_number_or_null};
use fw_log_entry::{NodeRow, ResetEntry};
use fw_log_names::{device_name, put_word};
use std::alloc::AllocError;

fn put_node_object(text: &mut Vec<u8>, node: usize, r: &NodeRow) -> Result<(), AllocError>
    ensures { OnOk result (text.new.items ≡ text.old.items ++ node_object node r.now) }
{
    put_count(text, r#"{"node":"#, node as u64)?;
    put_count(text, r#","device":"#, u64::from(r.device))?;
    put_count(text, r#","output_plugs":"#, u64::from(r.outs))?;
    put_count(text, r#","input_plugs":"#, u64::from(r.ins))?;
    let kind = device_name(r.kind);
    put_code(
        text,
        r#","device_kind":"#,
        u64::from(r.kind),
        r#","device_kind_name":"#,
        kind,
    )?;
    put_word(text, "}")
}

// Appends the objects of all nodes in an array.
fn put_nodes(text: &mut Vec<u8>, rows: &[NodeRow]) -> Result<(), AllocError>
    ensures { OnOk result (text.new.items ≡ text.old.items ++ array (node_objects 0 rows.now)) }
{
    put_word(text, "[")?;
    for node in 0..rows.len() {
        put_comma(text, node)?;
        put_node_object(text, node, &rows[node])?;
    }
    put_word(text, "]")
}

// Appends the nodes and the self-ID packets of a reset.
fn put_lists(text: &mut Vec<u8>, r: &ResetEntry) -> Result<(), AllocError>
    ensures { OnOk result (text.new.items ≡ text.old.items ++ list_fields r.now) }
{
    put_word(text, r#","nodes":"#)?;
    put_nodes(text, r.nodes.as_slice())?;
    put_word(text, r#","self_ids":"#)?;
    put_ids(text, r.ids.as_slice())
}

// Appends the fields of a reset after its epoch.
pub(crate) fn put_later(text: &mut Vec<u8>, r: &ResetEntry) -> Result<(), AllocError>
    ensures { OnOk result (text.new.items ≡ text.old.items ++ later_fields r.now) }
{
    put_count(text, r#","root":"#, u64::from(r.root))?;
    put_number_or_null(text, r#","manager":"#, r.manager)?;
    put_count(text, r#","initiator":"#, u64::from(r.initiator))?;
    put_lists(text, r)
}

// Appends the fields of a reset.
pub(crate) fn put_reset(text: &mut Vec<u8>, r: &ResetEntry) -> Result<(), AllocError>
    ensures { OnOk result (text.new.items ≡ text.old.items ++ reset_fields r.now) }
{
    put_count(text, r#","epoch":"#, u64::from(r.epoch))?;
    put_later(text, r)
}
