//! The entry that has a body, if the body is known to be right.

ghost use Rattle.std.specs.Prelude.{◌≡◌};
ghost use Rattle.fw_log_entry.specs.declared.entry.Entry.{Entry as AnEntry};
ghost use Rattle.fw_log_entry.specs.Log.{ResetFits, body};
ghost use Rattle.fw_log_entry.specs.declared.entry.Entry.TheVariants.{Reset};
ghost use Rattle.fw_log_entry.specs.declared.entry.ResetEntry.{ResetEntry as AReset};
ghost use Rattle.fw_log.specs.Passing.{HasBody};
ghost use Rattle.fw_log_text.specs.Resets.{IsResetBody};

use crate::whole_reset::{no_reset, read_whole_reset};
use fw_async::whole_packet;
use fw_cip::whole_iso;
use fw_log::{Entry, PlainBody};
use fw_log_entry::{BorrowedReset, ResetEntry};
use std::alloc::{AllocError, Global};

/// Room for the reset that an entry refers to. It is made once and kept.
#[derive(Drop)]
pub struct WholeRoom {
    reset: Box<ResetEntry>,
}

impl WholeRoom {
    /// Room for one reset. An error says that memory ran out.
    pub fn new(alloc: Global) -> Result<WholeRoom, AllocError> {
        Ok(WholeRoom {
            reset: Box::new(alloc, no_reset())?,
        })
    }

    /// The reset whose body these bytes are. No fault is looked for.
    pub fn make_reset(&mut self, bytes: &[u8]) -> &ResetEntry
        requires { IsResetBody bytes.now }
        ensures { (r : AReset) → ResetFits r → body (Reset r) ≡ bytes.now → result.now ≡ r }
    {
        read_whole_reset(&mut self.reset, bytes);
        &self.reset
    }

    /// The entry that has this body. No fault is looked for, so it costs less than to read the entry.
    pub fn make<'a>(&'a mut self, body: &PlainBody<'a>) -> Entry<'a>
        requires { (e : AnEntry) × HasBody body.now e }
        ensures { (e : AnEntry) → HasBody body.now e → result ≡ e }
    {
        match body {
            PlainBody::Packet(bytes) => Entry::Async(whole_packet(bytes.as_slice())),
            PlainBody::Iso(bytes) => Entry::Iso(whole_iso(bytes.as_slice())),
            PlainBody::Reset(bytes) => {
                read_whole_reset(&mut self.reset, bytes.as_slice());
                Entry::Reset(BorrowedReset::new(&self.reset))
            }
        }
    }
}
