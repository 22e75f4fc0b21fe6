//! Packets from bytes that come in any pieces.

ghost use Rattle.std.specs.Prelude.{ℕ, ◌≡◌, ◌≤◌, ◌<◌, ◌+◌, ◌++◌, [], length, take, IsTrue, ◌↔◌, IfSome, IfNone, IfErr};
ghost use Rattle.fw_async_fields.specs.Reading.{IsPending, fault_of};
ghost use Rattle.fw_async.specs.Reader.{Spells, Feeds, EndsNothing, IsRefused};
ghost use Rattle.fw_async_fields.specs.declared.PacketFault.{PacketFault};
ghost use Rattle.fw_async.specs.declared.packet.Packet.{Packet};

use crate::{Fed, PacketFault, read_packet};
use fw_words::Bytes;
use std::marker::Model;

/// Reads packets from bytes that come in any pieces. It keeps the bytes since the last packet and the fault that it
/// answered, and takes no memory besides.
#[derive(Drop)]
pub struct PacketReader {
    taken: Bytes<528>,
    fault: Option<PacketFault>,
}

impl Model for PacketReader {
    ghost use Rattle.fw_async.specs.Reader.{State, HoldsPending};

    ghost Value = { State };

    ghost view = { λ r. record { taken = r.taken; fault = r.fault } };

    ghost invariant = { λ r. HoldsPending r.taken r.fault };
}

impl PacketReader {
    /// No byte was taken.
    pub fn new() -> Self
        ensures { result ≡ record { taken = []; fault = None } }
    {
        PacketReader {
            taken: Bytes::new(),
            fault: None,
        }
    }

    /// No byte of a packet was taken since the last packet. After a fault it is false.
    pub fn is_between(&self) -> bool
        ensures { IsTrue result ↔ (self.now.taken ≡ []) }
    {
        self.taken.as_slice().is_empty()
    }

    // Takes bytes up to the end of one packet, if no fault was answered.
    fn feed_fresh<'a>(
        &mut self,
        piece: &[u8],
        room: &'a mut Bytes<528>,
    ) -> Result<Fed<'a>, PacketFault>
        requires fresh { self.old.fault ≡ None }
        requires pending { IsPending self.old.taken }
        ensures { Feeds self.old.taken piece.now result self.new }
    {
        let before = self.taken.as_slice().len();
        room.join(self.taken.as_slice(), piece);
        let bytes = room.as_slice();
        match read_packet(bytes) {
            Err(fault) => {
                self.taken.append(&bytes[before..]);
                self.fault = Some(fault);
                Err(fault)
            }
            Ok(fed) => {
                let Fed { used, packet } = fed;
                match packet {
                    Some(packet) => {
                        self.taken.clear();
                        Ok(Fed {
                            used: used - before,
                            packet: Some(packet),
                        })
                    }
                    None => {
                        self.taken.append(&bytes[before..]);
                        Ok(Fed {
                            used: used - before,
                            packet: None,
                        })
                    }
                }
            }
        }
    }

    /// Takes bytes up to the end of one packet, or all of the piece if no packet ends in it and no fault shows. The
    /// packet's bytes are put together in `room`, which the packet refers to; what the room held does not matter.
    ///
    /// A fault is answered by the call that takes the last byte of the quadlet, or the padding byte, which shows it:
    /// no packet begins with the bytes up to there. After it each call answers the same fault and changes nothing.
    pub fn feed<'a>(
        &mut self,
        piece: &[u8],
        room: &'a mut Bytes<528>,
    ) -> Result<Fed<'a>, PacketFault>
        ensures kept { IfSome self.old.fault (λ f. (result ≡ Err f) × (self.new ≡ self.old)) }
        ensures fresh { IfNone self.old.fault (Feeds self.old.taken piece.now result self.new) }
        ensures packet { IfNone self.old.fault ((k : ℕ) → (p : Packet) → k ≤ length piece.now → Spells p (self.old.taken ++ take k piece.now) → result ≡ Ok (record { used = k; packet = Some p })) }
        ensures none { IfNone self.old.fault (EndsNothing self.old.taken piece.now → result ≡ Ok (record { used = length piece.now; packet = None })) }
        ensures fault { IfNone self.old.fault ((k : ℕ) → (f : PacketFault) → k < length piece.now → IsPending (self.old.taken ++ take k piece.now) → fault_of (self.old.taken ++ take (k + 1) piece.now) ≡ Some f → result ≡ Err f) }
        ensures no_packet_begins { IfNone self.old.fault (IfErr result (IsRefused self.old.taken piece.now)) }
    {
        match self.fault {
            Some(fault) => Err(fault),
            None => self.feed_fresh(piece, room),
        }
    }
}
