//! A frame after a text that may fail, for those that do not say a `Text` yet.

ghost use Rattle.std.specs.Prelude.{◌≡◌, ◌++◌, OnOk};
ghost use Rattle.fw_log_frames.specs.Frames.{frame_text};

use crate::frame::put_frame;
use fw_text::Text;
use std::alloc::AllocError;
use std::mem;

/// Appends a frame in words. An error says that memory ran out, and comes for nothing else.
pub fn append_frame(text: &mut Vec<u8>, bytes: &[u8]) -> Result<(), AllocError>
    ensures { OnOk result (text.new.items ≡ text.old.items ++ frame_text bytes.now) }
{
    let alloc = *text.allocator();
    let mut said = Text::after(mem::replace(text, Vec::new(alloc)));
    put_frame(&mut said, bytes);
    *text = said.into_bytes()?;
    Ok(())
}
