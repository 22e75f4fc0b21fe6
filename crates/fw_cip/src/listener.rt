ghost use Rattle.std.specs.Prelude.{◌≡◌, [], ◌∷◌, ◌++◌, List};
ghost use Rattle.fw_cip.specs.declared.packet.IsoPacket.{IsoPacket};
ghost use Rattle.fw_cip.specs.Streams.{expected_of, heard};

use crate::IsoPacket;
use std::marker::Model;

/// What a packet is to a listener.
#[derive(Clone, Copy, PartialEq, Eq)]
pub enum Heard {
    /// The packet has a block, and its DBC is the expected one or the first.
    Block,
    /// The packet has no block, and its DBC is the expected one or the first.
    Empty,
    /// The packet's DBC is not the expected one: packets were lost.
    Gap {
        /// The DBC that was expected.
        expected: u8,
        /// The packet's DBC.
        found: u8,
    },
}

/// Follows the packets of one channel.
#[derive(Clone, Copy)]
pub struct Listener {
    expected: Option<u8>,
}

impl Model for Listener {
    ghost use Rattle.std.specs.Prelude.{Option, ℕ};

    ghost Value = { Option ℕ };

    ghost view = { λ l. l.expected };

    ghost inverse = { λ o. record { expected = o } };
}

impl Listener {
    /// No packet was heard.
    pub fn new() -> Listener
        ensures { result ≡ expected_of [] }
    {
        Listener { expected: None }
    }

    /// Hears a packet. It is a gap exactly if a packet was heard before and its DBC is not the expected one: the one
    /// after the latest block, or that of the first packet while none had a block.
    pub fn take(&mut self, p: &IsoPacket) -> Heard
        ensures answer { result ≡ heard self.old p.now }
        ensures expects { (packets : List IsoPacket) → self.old ≡ expected_of packets → self.new ≡ expected_of (packets ++ p.now ∷ []) }
    {
        let found = p.cip.dbc;
        let expected = self.expected.unwrap_or(found);
        self.expected = Some(match p.block {
            Some(_) => found.wrapping_add(1),
            None => expected,
        });
        if found != expected {
            return Heard::Gap { expected, found };
        }
        match p.block {
            Some(_) => Heard::Block,
            None => Heard::Empty,
        }
    }
}
