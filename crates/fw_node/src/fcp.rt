//! FCP (IEC 61883-1, 9): command frames that are written to a node, and the frames that it sends.

ghost use Rattle.std.specs.Prelude.{◌≡◌, Some, IfSome, is_some};
ghost use Rattle.std.specs.Borrow.{sem};
ghost use Rattle.std.specs.Option.{option_map};
ghost use Rattle.fw_async.specs.Async.{Fits as HasSpelling};
ghost use Rattle.fw_fcp.specs.Frames.{Fits};
ghost use Rattle.fw_tape.specs.Desks.{AnyVendorByte};
ghost use Rattle.fw_terms.specs.Devices.{has_unit};
ghost use Rattle.fw_csr.specs.declared.request.Request.{Request};
ghost use Rattle.fw_avc.specs.State.{UnitState};
ghost use Rattle.fw_node.specs.Lending.{LendsUnit};
ghost use Rattle.fw_node.specs.Fcp.{command_bytes, IsSendable, HasFollowed, local_id, number_of, frame_packet, next_frame, after_frame};

use crate::Node;
use crate::response::RETRY_X;
use fw_async::{Head, Packet, node_id};
use fw_avc::Unit;
use fw_csr::Request;
use fw_csr::offset::{FCP_COMMAND, FCP_RESPONSE};
use fw_fcp::{Frame, GENERAL_INQUIRY, read_frame, write_frame};
use fw_tape::{Desk, Tape};
use fw_terms::Label;
use fw_words::{Bytes512, Data, Quadlet, are_bytes, put_quadlet, quadlet_at};

/// The bytes of the longest frame, which fills a block.
const LONGEST_FRAME: usize = 512;

/// The number of a node that no bus reset has numbered (IEEE 1394-1995, NODE_IDS).
const NO_NUMBER: u8 = 63;

impl Node {
    /// The AV/C unit. None exactly if the node is a relay or a computer.
    pub fn unit(&mut self) -> Option<&mut Unit>
        ensures* lends { sem 𝓛 (LendsUnit self.entry result) }
        ensures unit { option_map (λ u. u.now) result ≡ self.old.unit }
        ensures variant { is_some result ≡ has_unit self.old.kind }
    {
        match &mut self.unit {
            Some(unit) => Some(unit),
            None => None,
        }
    }

    /// The tape subunit of its unit, to be read. None exactly if the node is a relay or a computer.
    pub fn tape_subunit(&self) -> Option<&Tape>
        ensures tape { option_map (λ t. t.now) result ≡ option_map (λ (u : UnitState). u.tape) self.now.unit }
        ensures variant { is_some result ≡ has_unit self.now.kind }
    {
        match &self.unit {
            Some(unit) => Some(unit.tape_subunit()),
            None => None,
        }
    }

    /// What follows from a request of node `from`: a command frame that is written to FCP_COMMAND is carried out by the
    /// unit, and its response then waits. Bytes that are no frame, and response frames, are ignored (own).
    pub(crate) fn follow<F: Fn(u16, u32, u16) -> [u8; 480], H: Fn(u32, u8) -> u8>(
        &mut self,
        from: u8,
        r: &Request,
        desk: &Desk<F, H>,
    )
        requires desk { AnyVendorByte (H.pre desk.now.vendor) }
        ensures { HasFollowed (H.post desk.now.vendor) from (Some r.now) self.old self.new }
    {
        match r {
            Request::Write {
                offset: FCP_COMMAND,
                value,
            } => self.command(from, &put_quadlet(Quadlet(*value)), desk),
            Request::WriteBlock {
                offset: FCP_COMMAND,
                bytes,
            } => self.command(from, bytes.as_slice(), desk),
            _ => {}
        }
    }

    /// What follows from bytes that node `from` writes to FCP_COMMAND.
    #[inline(always)]
    fn command<F: Fn(u16, u32, u16) -> [u8; 480], H: Fn(u32, u8) -> u8>(
        &mut self,
        from: u8,
        bytes: &[u8],
        desk: &Desk<F, H>,
    )
        requires desk { AnyVendorByte (H.pre desk.now.vendor) }
        ensures { (r : Request) → command_bytes r ≡ Some bytes.now → HasFollowed (H.post desk.now.vendor) from (Some r) self.old self.new }
    {
        if bytes.len() > LONGEST_FRAME {
            return;
        }
        let Some(unit) = &mut self.unit else {
            return;
        };
        let mut frame = Frame::new();
        let Ok(()) = read_frame(bytes, &mut frame) else {
            return;
        };
        if frame.code <= GENERAL_INQUIRY {
            self.waiting.respond(unit, from, &frame, desk);
        }
    }

    /// The packet that is sent next: the response to the latest command, if it waits, and then the notices of changes. None
    /// exactly if no response waits and no kept value has changed. The bytes of a frame of a block lie in `room`.
    #[inline(always)]
    pub fn outgoing<'a>(&mut self, room: &'a mut Bytes512) -> Option<Packet<'a>>
        ensures packet { result ≡ option_map (frame_packet (number_of self.old.number)) (next_frame self.old) }
        ensures node { self.new ≡ after_frame self.old }
        ensures fits { IfSome result HasSpelling }
    {
        let from = self.number.unwrap_or(NO_NUMBER);
        if let Some(unit) = &mut self.unit {
            self.waiting.fill(unit);
        }
        self.waiting.send(from, room)
    }
}

/// The packet by which node `from` writes a frame to FCP_RESPONSE of node `to`. The frame's bytes are put into `room`.
pub(crate) fn frame_packet<'a>(
    from: u8,
    to: u8,
    frame: &Frame,
    room: &'a mut Bytes512,
) -> Packet<'a>
    requires { Fits frame.now }
    ensures packet { result ≡ frame_packet from (to, frame.now) }
    ensures fits { HasSpelling result }
{
    let head = Head {
        destination: local_id(to),
        tl: Label::Script.code(),
        rt: RETRY_X,
        pri: 0,
        source: local_id(from),
    };
    write_frame(frame, room);
    let bytes = room.as_slice();
    are_bytes(bytes);
    if bytes.len() == 4 {
        let value = quadlet_at(bytes, 0).0;
        return Packet::WriteQuadlet {
            head,
            offset: FCP_RESPONSE,
            value,
        };
    }
    Packet::WriteBlock {
        head,
        offset: FCP_RESPONSE,
        bytes: Data::new(bytes),
    }
}

/// What the type of a frame says of its operands.
pub(crate) fn is_sendable(frame: &Frame)
    requires { Fits frame.now }
    ensures { IsSendable frame.now }
{
    let _opcode = frame.opcode;
    are_bytes(frame.operands.as_slice());
}

/// The node ID on the local bus of a node's number, of which six bits count.
fn local_id(number: u8) -> u16
    ensures { result ≡ local_id number }
{
    node_id(number % 64)
}
