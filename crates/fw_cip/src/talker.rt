ghost use Rattle.std.specs.Prelude.{ℕ, ◌≡◌, ◌<◌, ◌+◌, ◌%◌};
ghost use Rattle.std.specs.Option.{option_map};
ghost use Rattle.fw_cip.specs.Iso.{Fits};
ghost use Rattle.fw_cip.specs.Streams.{HasSent, packet_after, count_of, fdf_of};

use crate::{Block, CipHeader, IsoPacket};
use std::marker::Model;

/// Makes the packets of an output plug's stream, from the cycle on in which it begins to talk.
#[derive(Clone, Copy)]
pub struct Talker {
    channel: u8,
    dbc: u8,
}

impl Model for Talker {
    ghost use Rattle.fw_cip.specs.Streams.{Stream};

    ghost Value = { Stream };

    ghost view = { λ t. record { channel = t.channel; dbc = t.dbc } };

    ghost use Rattle.std.specs.Prelude.{◌<◌};

    ghost invariant = { λ t. t.dbc < 256 };

    ghost inverse = { λ s. record { channel = s.channel; dbc = s.dbc } };
}

fn fdf_of(fifty: bool) -> u32
    ensures { result ≡ fdf_of fifty }
{
    if fifty { 0x80_FFFF } else { 0x00_FFFF }
}

impl Talker {
    /// A talker on a channel, which has sent no block.
    pub fn new(channel: u8) -> Talker
        ensures channel { result.channel ≡ channel }
        ensures count { HasSent 0 result }
    {
        Talker { channel, dbc: 0 }
    }

    /// The packet of a cycle, with the block that is due, if one is. `sid` is the sender's node number, and `fifty` is
    /// true for 625-50. Its DBC counts the blocks since the talker began, modulo 256, before this one.
    pub fn cycle<'a>(&mut self, sid: u8, fifty: bool, next: Option<&'a [u8; 480]>) -> IsoPacket<'a>
        ensures channel { self.new.channel ≡ self.old.channel }
        ensures packet { (blocks : ℕ) → HasSent blocks self.old → result ≡ packet_after self.old.channel blocks sid fifty (option_map (λ b. b.now) next.entry) }
        ensures count { (blocks : ℕ) → HasSent blocks self.old → HasSent (blocks + count_of (option_map (λ b. b.now) next.entry)) self.new }
        ensures fits { self.old.channel < 64 → sid < 64 → Fits result }
    {
        let Talker { channel, dbc } = *self;
        let block = match next {
            Some(block) => {
                self.skip(1);
                Some(Block::new(block))
            }
            None => None,
        };
        IsoPacket {
            channel,
            sy: 0,
            cip: CipHeader {
                sid,
                dbs: 120,
                fraction: 0,
                qpc: 0,
                sph: false,
                dbc,
                fmt: 0,
                fdf: fdf_of(fifty),
            },
            block,
        }
    }

    /// Counts blocks that went by unwritten.
    pub fn skip(&mut self, blocks: u64)
        ensures channel { self.new.channel ≡ self.old.channel }
        ensures count { (sent : ℕ) → HasSent sent self.old → HasSent (sent + blocks) self.new }
    {
        self.dbc = self.dbc.wrapping_add((blocks % 256) as u8);
    }
}
