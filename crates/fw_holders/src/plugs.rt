//! The connections at a log's end.

ghost use Rattle.std.specs.Prelude.{◌≡◌, ◌++◌, OnOk, codes, decimal, IsTrue};
ghost use Rattle.fw_model_account.specs.Account.{Account, Connections, has_connection, counter as connections};
ghost use Rattle.fw_account_tables.specs.Stands.{Stands, StandsFor, SeatsFor};
ghost use Rattle.fw_holders_text.specs.Names.{plug_text};
ghost use Rattle.fw_holders.specs.Table.{plug_line, output_line, input_line, lines_below, plug_lines};

use crate::owners::put_owners;
use crate::place::{has_plug, seats_at, word_at};
use fw_account_tables::{Seats, Tables};
use fw_holders_text::{Side, put_plug};
use fw_log_entry::NodeRow;
use fw_log_names::{put_number, put_word};
use fw_plug::{InWord, OutWord};
use fw_terms::PlugAt;
use std::alloc::AllocError;

// Appends the beginning of a plug's line.
fn put_heading(
    text: &mut Vec<u8>,
    nodes: &[NodeRow],
    plug: (Side, PlugAt),
    channel: u8,
) -> Result<(), AllocError>
    ensures { OnOk result (text.new.items ≡ text.old.items ++ (codes "plug " ++ plug_text nodes.now plug.0 plug.1 ++ codes ", channel " ++ decimal channel ++ codes ": ")) }
{
    put_word(text, "plug ")?;
    put_plug(text, nodes, plug.0, plug.1)?;
    put_word(text, ", channel ")?;
    put_number(text, u64::from(channel))?;
    put_word(text, ": ")
}

// Appends the line of a plug that has connections.
fn put_line(
    text: &mut Vec<u8>,
    nodes: &[NodeRow],
    plug: (Side, PlugAt),
    channel: u8,
    seats: &Seats,
    counter: u8,
) -> Result<(), AllocError>
    ensures { (s : Connections) → SeatsFor seats.now s → counter ≡ connections s → IsTrue (has_connection s)
        → OnOk result (text.new.items ≡ text.old.items ++ plug_line nodes.now plug.0 plug.1 channel s) }
{
    put_heading(text, nodes, plug, channel)?;
    put_owners(text, nodes, seats, counter)?;
    put_word(text, "\n")
}

// Appends the line of an output plug, if it is there and has connections.
fn put_output(text: &mut Vec<u8>, tables: &Tables, p: PlugAt) -> Result<(), AllocError>
    requires stands { Stands tables.now }
    ensures { (l : Account) → StandsFor tables.now l → OnOk result (text.new.items ≡ text.old.items ++ output_line l p) }
{
    if !has_plug(&tables.outs, p) {
        return Ok(());
    }
    let word = OutWord(word_at(&tables.outputs, p));
    if !word.is_connected() {
        return Ok(());
    }
    put_line(
        text,
        tables.nodes.as_slice(),
        (Side::Output, p),
        word.channel(),
        &seats_at(&tables.output_seats, p),
        word.counter(),
    )
}

// Appends the line of an input plug, if it is there and has connections.
fn put_input(text: &mut Vec<u8>, tables: &Tables, p: PlugAt) -> Result<(), AllocError>
    requires stands { Stands tables.now }
    ensures { (l : Account) → StandsFor tables.now l → OnOk result (text.new.items ≡ text.old.items ++ input_line l p) }
{
    if !has_plug(&tables.ins, p) {
        return Ok(());
    }
    let word = InWord(word_at(&tables.inputs, p));
    if !word.is_connected() {
        return Ok(());
    }
    put_line(
        text,
        tables.nodes.as_slice(),
        (Side::Input, p),
        word.channel(),
        &seats_at(&tables.input_seats, p),
        word.counter(),
    )
}

// Appends the lines of the output plugs of a device.
fn put_outputs(text: &mut Vec<u8>, tables: &Tables, device: u8) -> Result<(), AllocError>
    requires stands { Stands tables.now }
    ensures { (l : Account) → StandsFor tables.now l → OnOk result (text.new.items ≡ text.old.items ++ lines_below 31 device (output_line l)) }
{
    for plug in 0..31 {
        put_output(text, tables, PlugAt { device, plug })?;
    }
    Ok(())
}

// Appends the lines of the input plugs of a device.
fn put_inputs(text: &mut Vec<u8>, tables: &Tables, device: u8) -> Result<(), AllocError>
    requires stands { Stands tables.now }
    ensures { (l : Account) → StandsFor tables.now l → OnOk result (text.new.items ≡ text.old.items ++ lines_below 31 device (input_line l)) }
{
    for plug in 0..31 {
        put_input(text, tables, PlugAt { device, plug })?;
    }
    Ok(())
}

/// Appends a line for each plug that has connections.
pub(crate) fn put_plugs(text: &mut Vec<u8>, tables: &Tables) -> Result<(), AllocError>
    requires stands { Stands tables.now }
    ensures { (l : Account) → StandsFor tables.now l → OnOk result (text.new.items ≡ text.old.items ++ plug_lines 63 l) }
{
    for device in 0..63 {
        put_outputs(text, tables, device)?;
        put_inputs(text, tables, device)?;
    }
    Ok(())
}
