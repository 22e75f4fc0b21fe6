//! What a controller does, as text.

ghost use Rattle.std.specs.Prelude.{◌≡◌, ◌++◌, OnOk};
ghost use Rattle.fw_holders_text.specs.Deeds.{connection_text, takes_text, deed_text, done_text};
ghost use Rattle.fw_holders_text.specs.Names.{plug_text};

use crate::bus_nodes::BusNodes;
use crate::names::{Side, put_count};
use fw_log_names::{put_number, put_word};
use fw_terms::{ConnectionKind, PlugAt};
use std::alloc::AllocError;

/// What a controller does by a compare_swap.
#[derive(Clone, Copy)]
pub enum Deed {
    /// It allocates this channel.
    TakesChannel(u8),
    /// It allocates so many bandwidth units.
    TakesUnits(u32),
    /// It gives so many bandwidth units back.
    GivesUnits(u32),
    /// It gives this channel back.
    GivesChannel(u8),
    /// It makes the first connection of a plug.
    Connects(Side, PlugAt, ConnectionKind),
    /// It makes a connection of a plug that has one.
    Adds(Side, PlugAt, ConnectionKind),
    /// It breaks a connection of a plug.
    Leaves(Side, PlugAt, ConnectionKind),
}

// Appends that something is taken. What is taken in a reclaim second was held before.
#[tactic(auto, unfolding(crate::specs::Deeds::takes_text))]
fn put_takes(text: &mut Vec<u8>, reclaiming: bool) -> Result<(), AllocError>
    ensures { OnOk result (text.new.items ≡ text.old.items ++ takes_text reclaiming) }
{
    put_word(text, if reclaiming { "reclaims " } else { "takes " })
}

// Appends the kind of a connection, if it is a broadcast one.
#[tactic(auto, unfolding(crate::specs::Deeds::connection_text))]
fn put_kind(text: &mut Vec<u8>, kind: ConnectionKind) -> Result<(), AllocError>
    ensures { OnOk result (text.new.items ≡ text.old.items ++ connection_text kind) }
{
    match kind {
        ConnectionKind::PointToPoint => Ok(()),
        ConnectionKind::Broadcast => put_word(text, " broadcast"),
    }
}

// Appends what is done with a plug's connection.
fn put_connection(
    text: &mut Vec<u8>,
    nodes: &BusNodes,
    verb: &str,
    plug: (Side, PlugAt),
    kind: ConnectionKind,
) -> Result<(), AllocError>
    ensures { OnOk result (text.new.items ≡ text.old.items ++ (verb.now ++ plug_text nodes.now plug.0 plug.1 ++ connection_text kind)) }
{
    put_word(text, verb)?;
    nodes.put_plug(text, plug.0, plug.1)?;
    put_kind(text, kind)
}

// Appends what is done, whether a reclaim second runs or not.
#[tactic(auto, unfolding(crate::specs::Deeds::deed_text))]
fn put_deed(
    text: &mut Vec<u8>,
    nodes: &BusNodes,
    reclaiming: bool,
    deed: Deed,
) -> Result<(), AllocError>
    ensures { OnOk result (text.new.items ≡ text.old.items ++ deed_text nodes.now reclaiming deed) }
{
    match deed {
        Deed::TakesChannel(channel) => {
            put_takes(text, reclaiming)?;
            put_word(text, "channel ")?;
            put_number(text, u64::from(channel))
        }
        Deed::TakesUnits(units) => {
            put_takes(text, reclaiming)?;
            put_count(text, u64::from(units), "unit")
        }
        Deed::GivesUnits(units) => {
            put_word(text, "gives back ")?;
            put_count(text, u64::from(units), "unit")
        }
        Deed::GivesChannel(channel) => {
            put_word(text, "gives back channel ")?;
            put_number(text, u64::from(channel))
        }
        Deed::Connects(side, p, kind) => put_connection(text, nodes, "connects ", (side, p), kind),
        Deed::Adds(side, p, kind) => put_connection(text, nodes, "adds to ", (side, p), kind),
        Deed::Leaves(side, p, kind) => put_connection(text, nodes, "leaves ", (side, p), kind),
    }
}

/// Appends what the controller of a device does.
#[tactic(auto, unfolding(crate::specs::Deeds::done_text))]
pub(crate) fn put_done(
    text: &mut Vec<u8>,
    nodes: &BusNodes,
    reclaiming: bool,
    controller: u8,
    deed: Deed,
) -> Result<(), AllocError>
    ensures { OnOk result (text.new.items ≡ text.old.items ++ done_text nodes.now reclaiming controller deed) }
{
    nodes.put_who(text, controller)?;
    put_word(text, " ")?;
    put_deed(text, nodes, reclaiming, deed)
}
