//! Request packets and their responses as bytes, as they stand on the bus.

ghost use Rattle.std.specs.Prelude.{◌≡◌, ◌≤◌, ℕ, Some, None, IsSome, IsTrue};
ghost use Rattle.fw_async.specs.Async.{Fits};
ghost use Rattle.fw_async.specs.Quadlets.{request_packet};
ghost use Rattle.fw_async.specs.Reader.{Spells};
ghost use Rattle.fw_async.specs.declared.packet.Packet.{Packet as AsyncPacket};
ghost use Rattle.fw_terms.specs.Devices.{has_link};
ghost use Rattle.fw_tape.specs.Desks.{AnyVendorByte};
ghost use Rattle.fw_node.specs.Fcp.{HasFollowed};
ghost use Rattle.fw_node.specs.Packets.{IsAnswer, IsRequest, IsServed, request_in, requester};
ghost use Rattle.fw_node.specs.State.{after_request, space_of};

use crate::Node;
use crate::request::{asked_of, request_of};
use crate::response::{put_reply, response};
use arrayvec::ArrayVec;
use fw_async::{
    Packet, PacketRoom, QuadletRequest, quadlet_request_at, whole_packet, write_packet,
};
use fw_csr::Reply;
use fw_tape::Desk;

impl Node {
    /// `answer` from bytes to bytes: carries the request packet that these bytes are out in cycle `now`, and writes the response's
    /// bytes in place of what `out` held.
    pub fn take<F: Fn(u16, u32, u16) -> [u8; 480], H: Fn(u32, u8) -> u8>(
        &mut self,
        now: u64,
        bytes: &[u8],
        desk: &Desk<F, H>,
        out: &mut ArrayVec<u8, 528>,
    )
        requires desk { AnyVendorByte (H.pre desk.now.vendor) }
        requires request { IsRequest bytes.now }
        requires link { IsTrue (has_link self.old.kind) }
        requires reset { IsSome self.old.number }
        requires given { self.old.waiting ≡ None }
        ensures response { (p : AsyncPacket) → Spells p bytes.now → (number : ℕ) → self.old.number ≡ Some number → IsAnswer (space_of number now self.old) p out.new.items }
        ensures node { (p : AsyncPacket) → Spells p bytes.now → HasFollowed (H.post desk.now.vendor) (requester p) (request_in p) (after_request (request_in p) self.old) self.new }
    {
        let response = self.answer(now, &whole_packet(bytes), desk);
        write_packet(&response, out);
    }

    /// `carry_out` from bytes to bytes, with the reply that the response carries beside its bytes, which are put into `out`. A read
    /// and a compare_swap of a quadlet are carried out at once.
    #[inline(always)]
    pub fn serve(&mut self, now: u64, bytes: &[u8], out: &mut PacketRoom) -> Reply
        requires request { IsRequest bytes.now }
        requires link { IsTrue (has_link self.old.kind) }
        requires reset { IsSome self.old.number }
        ensures response { (p : AsyncPacket) → Spells p bytes.now → (number : ℕ) → self.old.number ≡ Some number → IsServed (space_of number now self.old) p out.new result }
        ensures registers { (p : AsyncPacket) → Spells p bytes.now → self.new ≡ after_request (request_in p) self.old }
    {
        let number = match self.number {
            Some(number) => number,
            None => unreachable!(),
        };
        match quadlet_request_at(bytes) {
            Some(asked) => self.serve_quadlet(number, now, &asked, out),
            None => self.serve_other(number, now, bytes, out),
        }
    }

    /// The same of a request for a quadlet.
    #[inline(always)]
    fn serve_quadlet(
        &mut self,
        number: u8,
        now: u64,
        asked: &QuadletRequest,
        out: &mut PacketRoom,
    ) -> Reply
        requires number { number ≤ 62 }
        requires fits { Fits (request_packet asked.now) }
        ensures response { IsServed (space_of number now self.old) (request_packet asked.now) out.new result }
        ensures registers { self.new ≡ after_request (request_in (request_packet asked.now)) self.old }
    {
        let reply = self.reply(number, now, &asked_of(asked));
        put_reply(number, asked, reply, out);
        reply
    }

    /// The same of any request, which is read whole.
    // Not inlined: requests are mostly for quadlets, and the room for another packet would be cleared at each.
    #[inline(never)]
    fn serve_other(&mut self, number: u8, now: u64, bytes: &[u8], out: &mut PacketRoom) -> Reply
        requires number { number ≤ 62 }
        requires request { IsRequest bytes.now }
        ensures response { (p : AsyncPacket) → Spells p bytes.now → IsServed (space_of number now self.old) p out.new result }
        ensures registers { (p : AsyncPacket) → Spells p bytes.now → self.new ≡ after_request (request_in p) self.old }
    {
        self.serve_packet(number, now, &whole_packet(bytes), out)
    }

    /// The same of any request packet.
    fn serve_packet(&mut self, number: u8, now: u64, p: &Packet, out: &mut PacketRoom) -> Reply
        requires number { number ≤ 62 }
        requires fits { Fits p.now }
        requires request { IsSome (request_in p.now) }
        ensures response { IsServed (space_of number now self.old) p.now out.new result }
        ensures registers { self.new ≡ after_request (request_in p.now) self.old }
    {
        let reply = self.reply(number, now, &request_of(p));
        out.put(&response(number, p, reply));
        reply
    }
}
