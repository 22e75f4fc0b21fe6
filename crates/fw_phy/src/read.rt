ghost use Rattle.std.specs.Prelude.{ℕ, ◌≡◌, ◌≤◌, ◌++◌, length, take, IfOk, IfSome, IsSome, ◌↔◌};
ghost use Rattle.std.specs.Int.{to_be_bytes, w32};
ghost use Rattle.std.specs.Result.{result_err};
ghost use Rattle.std.specs.Option.{option_map};
ghost use Rattle.fw_words.specs.Quadlet.{field, quadlet_at};
ghost use Rattle.fw_phy.specs.declared.packet.PhyPacket.{PhyPacket};
ghost use Rattle.fw_phy.specs.Phy.{Fits, quadlet_of, spelling, reserved_bit, phy_fault, IsTwice, StopsAt};

use crate::{PhyFault, PhyPacket, SelfId, SelfIdMore};
use fw_words::{Quadlet, first_set, get_quadlet};

fn self_id_of(q: Quadlet) -> SelfId
    requires kind { field q.0 0 1 ≡ 2 }
    requires zero { field q.0 8 8 ≡ 0 }
    ensures fits { Fits (PhyPacket.SelfId result) }
    ensures spelled { quadlet_of (PhyPacket.SelfId result) ≡ q.0 }
{
    SelfId {
        phy: q.field(2, 7) as u8,
        link: q.field(9, 9) == 1,
        gap: q.field(10, 15) as u8,
        speed: q.field(16, 17) as u8,
        delay: q.field(18, 19) as u8,
        contender: q.field(20, 20) == 1,
        power: q.field(21, 23) as u8,
        ports: [
            q.field(24, 25) as u8,
            q.field(26, 27) as u8,
            q.field(28, 29) as u8,
        ],
        initiator: q.field(30, 30) == 1,
        more: q.field(31, 31) == 1,
    }
}

fn self_id_more_of(q: Quadlet) -> SelfIdMore
    requires kind { field q.0 0 1 ≡ 2 }
    requires one { field q.0 8 8 ≡ 1 }
    requires number { field q.0 9 11 ≤ 2 }
    requires zeros { field q.0 12 13 ≡ 0 }
    requires zero { field q.0 30 30 ≡ 0 }
    ensures fits { Fits (PhyPacket.SelfIdMore result) }
    ensures spelled { quadlet_of (PhyPacket.SelfIdMore result) ≡ q.0 }
{
    SelfIdMore {
        phy: q.field(2, 7) as u8,
        number: q.field(9, 11) as u8,
        ports: [
            q.field(14, 15) as u8,
            q.field(16, 17) as u8,
            q.field(18, 19) as u8,
            q.field(20, 21) as u8,
            q.field(22, 23) as u8,
            q.field(24, 25) as u8,
            q.field(26, 27) as u8,
            q.field(28, 29) as u8,
        ],
        more: q.field(31, 31) == 1,
    }
}

fn config_of(q: Quadlet) -> PhyPacket
    requires kind { field q.0 0 1 ≡ 0 }
    requires zeros { field q.0 16 31 ≡ 0 }
    ensures fits { Fits result }
    ensures spelled { quadlet_of result ≡ q.0 }
{
    PhyPacket::Config {
        root: q.field(2, 7) as u8,
        force_root: q.field(8, 8) == 1,
        set_gap: q.field(9, 9) == 1,
        gap: q.field(10, 15) as u8,
    }
}

fn link_on_of(q: Quadlet) -> PhyPacket
    requires kind { field q.0 0 1 ≡ 1 }
    requires zeros { field q.0 8 31 ≡ 0 }
    ensures fits { Fits result }
    ensures spelled { quadlet_of result ≡ q.0 }
{
    PhyPacket::LinkOn {
        phy: q.field(2, 7) as u8,
    }
}

// The self-ID packet that the quadlet is, or the fault at the first bit if none goes on.
fn self_id_packet_of(q: Quadlet) -> Result<PhyPacket, PhyFault>
    requires { field q.0 0 1 ≡ 2 }
    ensures fault { result_err result ≡ option_map PhyFault.Reserved (reserved_bit q.0) }
    ensures found { IfOk result (λ p. Fits p × (quadlet_of p ≡ q.0)) }
{
    if q.field(8, 8) == 0 {
        return Ok(PhyPacket::SelfId(self_id_of(q)));
    }
    if q.field(9, 11) >= 4 {
        return Err(PhyFault::Reserved(9));
    }
    if q.field(9, 11) == 3 {
        return Err(PhyFault::Reserved(11));
    }
    if q.field(12, 12) == 1 {
        return Err(PhyFault::Reserved(12));
    }
    if q.field(13, 13) == 1 {
        return Err(PhyFault::Reserved(13));
    }
    if q.field(30, 30) == 1 {
        return Err(PhyFault::Reserved(30));
    }
    Ok(PhyPacket::SelfIdMore(self_id_more_of(q)))
}

// The packet that the quadlet is, or the fault at the first bit if no packet goes on.
fn packet_of(q: Quadlet) -> Result<PhyPacket, PhyFault>
    ensures fault { result_err result ≡ option_map PhyFault.Reserved (reserved_bit q.0) }
    ensures found { IfOk result (λ p. Fits p × (quadlet_of p ≡ q.0)) }
{
    match q.field(0, 1) {
        0 => match first_set(q, 16, 31) {
            Some(bit) => Err(PhyFault::Reserved(bit)),
            None => Ok(config_of(q)),
        },
        1 => match first_set(q, 8, 31) {
            Some(bit) => Err(PhyFault::Reserved(bit)),
            None => Ok(link_on_of(q)),
        },
        2 => self_id_packet_of(q),
        _ => Err(PhyFault::Reserved(1)),
    }
}

// The two quadlets at the beginning.
fn quadlets_of(b: &[u8]) -> Option<(Quadlet, Quadlet)>
    ensures variant { IsSome result ↔ (8 ≤ length b.now) }
    ensures values { IfSome result (λ p. (p.0.0 ≡ quadlet_at b.now 0) × (p.1.0 ≡ quadlet_at b.now 4)) }
    ensures bytes { IfSome result (λ p. take 8 b.now ≡ to_be_bytes w32 p.0.0 ++ to_be_bytes w32 p.1.0) }
{
    let (first, rest) = b.split_first_chunk::<4>()?;
    let (second, _) = rest.split_first_chunk::<4>()?;
    Some((get_quadlet(*first), get_quadlet(*second)))
}

/// The packet that the first eight bytes spell; bytes after them are not read.
///
/// The first fault that holds is answered: `Short` if fewer than eight bytes are there, `NotInverse` if the
/// second quadlet is not the inverse of the first, and `Reserved` at the first bit at which no packet goes on.
pub fn read_phy(b: &[u8]) -> Result<PhyPacket, PhyFault>
    ensures fault { result_err result ≡ phy_fault b.now }
    ensures found { IfOk result (λ p. Fits p × (take 8 b.now ≡ spelling p)) }
    ensures only { (p : PhyPacket) → Fits p → take 8 b.now ≡ spelling p → result ≡ Ok p }
    ensures reserved { (bit : ℕ) → (result ≡ Err (PhyFault.Reserved bit)) ↔ (IsTwice b.now × StopsAt (quadlet_at b.now 0) bit) }
{
    let Some((q, inverse)) = quadlets_of(b) else {
        return Err(PhyFault::Short);
    };
    if inverse.0 != !q.0 {
        return Err(PhyFault::NotInverse);
    }
    packet_of(q)
}
