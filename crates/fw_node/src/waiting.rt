//! The frame that a node sends next.

ghost use Rattle.std.specs.Prelude.{◌≡◌, ◌≤◌, None, IfSome};
ghost use Rattle.std.specs.Option.{option_map};
ghost use Rattle.fw_async.specs.Async.{Fits as HasSpelling};
ghost use Rattle.fw_fcp.specs.Frames.{Fits};
ghost use Rattle.fw_tape.specs.Desks.{AnyVendorByte};
ghost use Rattle.fw_avc.specs.Replies.{unit_after};
ghost use Rattle.fw_node.specs.Fcp.{frame_packet};
ghost use Rattle.fw_node.specs.Waiting.{HoldsResponse, filled, unit_left};

use crate::fcp::{frame_packet, is_sendable};
use fw_async::Packet;
use fw_avc::Unit;
use fw_fcp::Frame;
use fw_tape::Desk;
use fw_words::Bytes512;
use std::marker::Model;

/// A frame that waits to be sent, and the number of the node that it goes to. If none waits, the frame is room for the next.
#[derive(Drop)]
pub(crate) struct Waiting {
    pub(crate) to: Option<u8>,
    pub(crate) frame: Frame,
}

impl Model for Waiting {
    ghost use Rattle.std.specs.Prelude.{ℕ, Option};
    ghost use Rattle.std.specs.Option.{option_map};
    ghost use Rattle.fw_fcp.specs.declared.frame.Frame.{Frame as FrameRecord};

    ghost Value = { Option (ℕ × FrameRecord) };

    ghost view = { λ w. option_map (λ to. (to, w.frame)) w.to };
}

impl Waiting {
    /// No frame waits.
    pub(crate) fn new() -> Waiting
        ensures { result ≡ None }
    {
        Waiting {
            to: None,
            frame: Frame::new(),
        }
    }

    /// What waits is discarded.
    pub(crate) fn clear(&mut self)
        ensures { self.new ≡ None }
    {
        self.to = None;
    }

    /// A unit carries a command of node `from` out, and its response waits in place of what did.
    pub(crate) fn respond<F: Fn(u16, u32, u16) -> [u8; 480], H: Fn(u32, u8) -> u8>(
        &mut self,
        unit: &mut Unit,
        from: u8,
        command: &Frame,
        desk: &Desk<F, H>,
    )
        requires desk { AnyVendorByte (H.pre desk.now.vendor) }
        requires code { command.now.code ≤ 4 }
        requires fits { Fits command.now }
        ensures response { HoldsResponse (H.post desk.now.vendor) unit.old from command.now self.new }
        ensures unit { unit.new ≡ unit_after unit.old from command.now }
    {
        unit.answer(from, command, desk, &mut self.frame);
        is_sendable(&self.frame);
        self.to = Some(from);
    }

    /// If no frame waits, the next notice of a unit does.
    pub(crate) fn fill(&mut self, unit: &mut Unit)
        ensures waiting { self.new ≡ filled self.old unit.old }
        ensures unit { unit.new ≡ unit_left self.old unit.old }
        ensures fits { IfSome self.old (λ told. Fits told.1) → IfSome self.new (λ told. Fits told.1) }
    {
        if self.to.is_none() {
            self.to = unit.notice(&mut self.frame);
        }
    }

    /// The packet by which node `from` sends the frame that waits, which then no longer does. The bytes of a frame of a block lie
    /// in `room`.
    pub(crate) fn send<'a>(&mut self, from: u8, room: &'a mut Bytes512) -> Option<Packet<'a>>
        requires { IfSome self.old (λ told. Fits told.1) }
        ensures packet { result ≡ option_map (frame_packet from) self.old }
        ensures sent { self.new ≡ None }
        ensures fits { IfSome result HasSpelling }
    {
        let to = self.to.take()?;
        Some(frame_packet(from, to, &self.frame, room))
    }
}
