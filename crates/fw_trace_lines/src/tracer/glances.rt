//! Packets of usual kinds, told as their bytes stand: no packet is made of them.

ghost use Rattle.std.specs.Prelude.{◌≡◌, ◌++◌, OnOk};
ghost use Rattle.fw_async.specs.Reader.{Spells, IsPacket};
ghost use Rattle.fw_async.specs.declared.packet.Packet.{Packet as APacket};
ghost use Rattle.fw_log_entry.specs.declared.entry.Entry.TheVariants.{Async};
ghost use Rattle.fw_trace_names.specs.CausedLines.{caused_text};
ghost use Rattle.fw_trace_lines.specs.Caused.{entry_lines, telling_after};
ghost use Rattle.fw_trace_requests.specs.Held.{lone_lines};
ghost use Rattle.fw_trace_lines.specs.Replies.{reply_lines, with_request, with_response};

use super::Tracer;
use crate::traffic::Traffic;
use fw_async::whole_packet;
use fw_async_glance::glance_at;
use fw_log_requests::Asked;
use fw_trace_requests::{Carried, Reply};
use std::alloc::AllocError;

impl Tracer {
    // Appends the lines that a request brings which carries this.
    #[inline(never)]
    fn put_request(&mut self, cycle: u64, q: Asked, carried: Carried) -> Result<(), AllocError>
        ensures text { OnOk result (self.new.text ≡ self.old.text ++ caused_text (lone_lines self.old.telling.held)) }
        ensures kept { OnOk result (self.new.telling ≡ with_request cycle q carried self.old.telling) }
    {
        self.put_held()?;
        self.take_request(cycle, q, carried)?;
        self.cycle = cycle;
        Ok(())
    }

    // Appends the lines that a response brings.
    #[inline(always)]
    fn put_answer(&mut self, cycle: u64, r: &Reply) -> Result<(), AllocError>
        ensures text { OnOk result (self.new.text ≡ self.old.text ++ caused_text (reply_lines self.old.telling cycle r.now)) }
        ensures kept { OnOk result (self.new.telling ≡ with_response cycle self.old.telling) }
    {
        self.put_reply(cycle, r)?;
        self.held.release();
        self.cycle = cycle;
        Ok(())
    }

    // Appends the lines that a packet brings which neither asks nor answers.
    #[inline(always)]
    pub(super) fn put_silent(&mut self, cycle: u64) -> Result<(), AllocError>
        ensures text { OnOk result (self.new.text ≡ self.old.text ++ caused_text (lone_lines self.old.telling.held)) }
        ensures kept { OnOk result (self.new.telling ≡ with_response cycle self.old.telling) }
    {
        self.put_held()?;
        self.held.release();
        self.cycle = cycle;
        Ok(())
    }

    /// As `put`, of the asynchronous packet in this cycle that these bytes are: most other entries are such.
    pub fn put_bytes(&mut self, cycle: u64, bytes: &[u8]) -> Result<(), AllocError>
        requires { IsPacket bytes.now }
        ensures text { (p : APacket) → Spells p bytes.now → OnOk result (self.new.text ≡ self.old.text ++ caused_text (entry_lines self.old.telling (record { cycle = cycle; what = Async p }))) }
        ensures kept { (p : APacket) → Spells p bytes.now → OnOk result (self.new.telling ≡ telling_after self.old.telling (record { cycle = cycle; what = Async p })) }
    {
        match Traffic::of(glance_at(bytes)) {
            Traffic::Request(q, carried) => self.put_request(cycle, q, carried),
            Traffic::Response(r) => self.put_answer(cycle, &r),
            Traffic::Silent => self.put_silent(cycle),
            Traffic::Other => self.put_async(cycle, &whole_packet(bytes)),
        }
    }
}
