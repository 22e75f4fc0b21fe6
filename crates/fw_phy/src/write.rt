ghost use Rattle.std.specs.Prelude.{◌≡◌};
ghost use Rattle.fw_phy.specs.declared.packet.PhyPacket.{PhyPacket};
ghost use Rattle.fw_phy.specs.Phy.{Fits, quadlet_of, spelling, twice};

use crate::{PhyPacket, SelfId, SelfIdMore};
use fw_words::{Quadlet, put_quadlet, with_field};

fn self_id_quadlet(s: &SelfId) -> u32
    requires { Fits (PhyPacket.SelfId s.now) }
    ensures { result ≡ quadlet_of (PhyPacket.SelfId s.now) }
{
    let q = with_field(2, 6, u32::from(s.phy));
    let q = with_field(q, 1, 0);
    let q = with_field(q, 1, u32::from(s.link));
    let q = with_field(q, 6, u32::from(s.gap));
    let q = with_field(q, 2, u32::from(s.speed));
    let q = with_field(q, 2, u32::from(s.delay));
    let q = with_field(q, 1, u32::from(s.contender));
    let q = with_field(q, 3, u32::from(s.power));
    let q = with_field(q, 2, u32::from(s.ports[0]));
    let q = with_field(q, 2, u32::from(s.ports[1]));
    let q = with_field(q, 2, u32::from(s.ports[2]));
    let q = with_field(q, 1, u32::from(s.initiator));
    with_field(q, 1, u32::from(s.more))
}

fn self_id_more_quadlet(s: &SelfIdMore) -> u32
    requires { Fits (PhyPacket.SelfIdMore s.now) }
    ensures { result ≡ quadlet_of (PhyPacket.SelfIdMore s.now) }
{
    let q = with_field(2, 6, u32::from(s.phy));
    let q = with_field(q, 1, 1);
    let q = with_field(q, 3, u32::from(s.number));
    let q = with_field(q, 2, 0);
    let q = with_field(q, 2, u32::from(s.ports[0]));
    let q = with_field(q, 2, u32::from(s.ports[1]));
    let q = with_field(q, 2, u32::from(s.ports[2]));
    let q = with_field(q, 2, u32::from(s.ports[3]));
    let q = with_field(q, 2, u32::from(s.ports[4]));
    let q = with_field(q, 2, u32::from(s.ports[5]));
    let q = with_field(q, 2, u32::from(s.ports[6]));
    let q = with_field(q, 2, u32::from(s.ports[7]));
    let q = with_field(q, 1, 0);
    with_field(q, 1, u32::from(s.more))
}

fn config_quadlet(root: u8, force_root: bool, set_gap: bool, gap: u8) -> u32
    requires { Fits (PhyPacket.Config root force_root set_gap gap) }
    ensures { result ≡ quadlet_of (PhyPacket.Config root force_root set_gap gap) }
{
    let q = with_field(0, 6, u32::from(root));
    let q = with_field(q, 1, u32::from(force_root));
    let q = with_field(q, 1, u32::from(set_gap));
    let q = with_field(q, 6, u32::from(gap));
    with_field(q, 16, 0)
}

fn quadlet_of(p: &PhyPacket) -> u32
    requires { Fits p.now }
    ensures { result ≡ quadlet_of p.now }
{
    match p {
        PhyPacket::SelfId(s) => self_id_quadlet(s),
        PhyPacket::SelfIdMore(s) => self_id_more_quadlet(s),
        PhyPacket::Config {
            root,
            force_root,
            set_gap,
            gap,
        } => config_quadlet(*root, *force_root, *set_gap, *gap),
        PhyPacket::LinkOn { phy } => {
            let q = with_field(1, 6, u32::from(*phy));
            with_field(q, 24, 0)
        }
    }
}

// A quadlet, and its logical inverse.
fn twice(q: u32) -> [u8; 8]
    ensures { result ≡ twice q }
{
    let [a, b, c, d] = put_quadlet(Quadlet(q));
    let [e, f, g, h] = put_quadlet(Quadlet(!q));
    [a, b, c, d, e, f, g, h]
}

/// The eight bytes of a packet. The numbers fit their fields, and the `number` of an extended self-ID packet
/// is at most 2.
pub fn write_phy(p: &PhyPacket) -> [u8; 8]
    requires { Fits p.now }
    ensures { result ≡ spelling p.now }
{
    twice(quadlet_of(p))
}
