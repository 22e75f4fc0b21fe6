//! The line of one entry as a string.

ghost use Rattle.std.specs.Prelude.{◌≡◌, IfOk, string_bytes};
ghost use Rattle.fw_log_entry.specs.Log.{Fits};
ghost use Rattle.fw_log_text.specs.Line.{entry_line};

use crate::room::{LineRoom, put_entry};
use fw_log_entry::Timed;
use std::alloc::{AllocError, Global};

/// The line of an entry, with its line feed. An error says that memory ran out, and comes for nothing else. If many lines are
/// made, `put_entry` makes them in one room.
pub fn entry_text(alloc: Global, t: &Timed) -> Result<String, AllocError>
    requires { Fits t.now.what }
    ensures { IfOk result (λ s. string_bytes s ≡ entry_line t.now) }
{
    let _cycle = t.cycle;
    let mut room = LineRoom::new(alloc)?;
    put_entry(&mut room, t)?;
    String::from_utf8_lossy(alloc, room.as_slice())
}
