//! What only lines and bus resets change of a bus's devices.

ghost use Rattle.std.specs.Prelude.{◌≡◌, IsTrue};

use crate::names::Names;
use fw_log_entry::ResetEntry;
use fw_tree::Cabling;
use std::marker::Model;

/// Devices without their nodes: names, cables, and what the latest bus reset found.
#[derive(Drop)]
pub struct Frame {
    pub(crate) cabling: Cabling,
    pub(crate) names: Names,
    pub(crate) manager: Option<u8>,
    pub(crate) entry: ResetEntry,
    pub(crate) withhold: bool,
}

impl Model for Frame {
    ghost use Rattle.fw_devices.specs.Frames.{NetworkFrame};

    ghost Value = { NetworkFrame };

    ghost view = { λ f. record { topology = f.cabling; names = f.names; epoch = f.entry.epoch; manager = f.manager; latest = f.entry; withheld = f.withhold } };
}
