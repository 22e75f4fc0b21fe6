//! Small texts: columns, counts, devices and plugs.

ghost use Rattle.std.specs.Prelude.{◌≡◌, ◌++◌, List, ℕ, OnOk, length, codes, decimal, replicate};
ghost use Rattle.fw_log_entry.specs.Network.{node_of_device};
ghost use Rattle.fw_holders_text.specs.Names.{left, right, count_text, kind_of_device, kind_text, who, side_text, plug_text};

use fw_log_entry::NodeRow;
use fw_log_names::{device_name, put_named, put_number, put_word};
use fw_terms::PlugAt;
use itoa::Buffer;
use std::alloc::AllocError;

/// Which register of a plug.
#[derive(Clone, Copy)]
pub enum Side {
    /// oPCR, of an output plug.
    Output,
    /// iPCR, of an input plug.
    Input,
}

// Appends so many spaces.
fn put_blanks(text: &mut Vec<u8>, count: usize) -> Result<(), AllocError>
    ensures { OnOk result (text.new.items ≡ text.old.items ++ replicate count 32) }
{
    let end = text.len().saturating_add(count);
    text.resize(end, b' ')
}

/// Appends the spaces that the text from this byte on lacks of a width.
#[tactic(auto, unfolding(crate::specs::Names::left))]
pub fn fill(text: &mut Vec<u8>, from: usize, width: usize) -> Result<(), AllocError>
    ensures { (before what : List ℕ) → text.old.items ≡ before ++ what → length before ≡ from → OnOk result (text.new.items ≡ before ++ left width what) }
{
    let written = text.len().saturating_sub(from);
    put_blanks(text, width.saturating_sub(written))
}

/// Appends a number at the right end of a column.
#[tactic(auto, unfolding(crate::specs::Names::right))]
pub(crate) fn put_right(text: &mut Vec<u8>, number: u64, width: usize) -> Result<(), AllocError>
    ensures { OnOk result (text.new.items ≡ text.old.items ++ right width (decimal number)) }
{
    let mut buffer = Buffer::new();
    let digits = buffer.format(number);
    put_blanks(text, width.saturating_sub(digits.len()))?;
    put_word(text, digits)
}

/// Appends how many there are of something.
#[tactic(auto, unfolding(crate::specs::Names::count_text))]
pub fn put_count(text: &mut Vec<u8>, n: u64, noun: &str) -> Result<(), AllocError>
    ensures { OnOk result (text.new.items ≡ text.old.items ++ count_text n noun.now) }
{
    put_number(text, n)?;
    put_word(text, " ")?;
    put_word(text, noun)?;
    put_word(text, if n == 1 { "" } else { "s" })
}

// The number of the node that a device is, or how many nodes there are.
fn node_of_device(nodes: &[NodeRow], device: u8) -> usize
    ensures { result ≡ node_of_device nodes.now device }
{
    for (n, row) in nodes.iter().enumerate() {
        if row.device == device {
            return n;
        }
    }
    nodes.len()
}

// The kind of a device, if it is a node.
fn kind_of_device(nodes: &[NodeRow], device: u8) -> Option<u8>
    ensures { result ≡ kind_of_device nodes.now device }
{
    let row = nodes.get(node_of_device(nodes, device))?;
    Some(row.kind)
}

// Appends what a device is, by its kind.
#[tactic(auto, unfolding(crate::specs::Names::kind_text))]
fn put_kind(text: &mut Vec<u8>, kind: Option<u8>) -> Result<(), AllocError>
    ensures { OnOk result (text.new.items ≡ text.old.items ++ kind_text kind) }
{
    match kind {
        Some(kind) => put_named(text, device_name(kind), "kind", u64::from(kind)),
        None => put_word(text, "device"),
    }
}

/// Appends a device of this kind, or that is no node: what it is, and its number.
pub(crate) fn put_device(text: &mut Vec<u8>, kind: Option<u8>, device: u8) -> Result<(), AllocError>
    ensures { OnOk result (text.new.items ≡ text.old.items ++ (kind_text kind ++ codes " " ++ decimal device)) }
{
    put_kind(text, kind)?;
    put_word(text, " ")?;
    put_number(text, u64::from(device))
}

/// Appends a device: what it is, and its number.
#[tactic(auto, unfolding(crate::specs::Names::who))]
pub fn put_who(text: &mut Vec<u8>, nodes: &[NodeRow], device: u8) -> Result<(), AllocError>
    ensures { OnOk result (text.new.items ≡ text.old.items ++ who nodes.now device) }
{
    put_device(text, kind_of_device(nodes, device), device)
}

// Appends the name of a plug's register.
#[tactic(auto, unfolding(crate::specs::Names::side_text))]
fn put_side(text: &mut Vec<u8>, side: Side) -> Result<(), AllocError>
    ensures { OnOk result (text.new.items ≡ text.old.items ++ side_text side) }
{
    match side {
        Side::Output => put_word(text, " oPCR["),
        Side::Input => put_word(text, " iPCR["),
    }
}

/// Appends the register of a plug of a device.
pub(crate) fn put_register(text: &mut Vec<u8>, side: Side, plug: u8) -> Result<(), AllocError>
    ensures { OnOk result (text.new.items ≡ text.old.items ++ (side_text side ++ decimal plug ++ codes "]")) }
{
    put_side(text, side)?;
    put_number(text, u64::from(plug))?;
    put_word(text, "]")
}

/// Appends a plug: its device, and its register.
#[tactic(auto, unfolding(crate::specs::Names::plug_text))]
pub fn put_plug(
    text: &mut Vec<u8>,
    nodes: &[NodeRow],
    side: Side,
    p: PlugAt,
) -> Result<(), AllocError>
    ensures { OnOk result (text.new.items ≡ text.old.items ++ plug_text nodes.now side p) }
{
    put_who(text, nodes, p.device)?;
    put_register(text, side, p.plug)
}
