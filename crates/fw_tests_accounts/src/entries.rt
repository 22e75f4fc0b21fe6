//! Entries of logs, from quadlets.

ghost use Rattle.fw_log_entry.specs.Log.{Fits};

use fw_log::{LogFed, LogReader, ReadBuffers, Timed};
use std::process::Abort;
use std::test::Fail;

/// The bytes of an entry of this kind, with these quadlets as its body, at cycle 0 after the header of a log of version 1.
pub fn bytes_of(rt: &impl AllocGlobal, kind: u8, body: &[u32]) -> Result<Vec<u8>, Fail> {
    let mut bytes = Vec::new(rt.alloc());
    for quadlet in [0x3133_3934_u32, 1, 0, 0] {
        bytes.extend_from_slice(&quadlet.to_be_bytes())?;
    }
    let size = (body.len() % 256) as u8;
    bytes.extend_from_slice(&[kind, 0, 0, size, 0, 0, 0, 0, 0, 0, 0, 0])?;
    for quadlet in body {
        bytes.extend_from_slice(&quadlet.to_be_bytes())?;
    }
    Ok(bytes)
}

/// The entry that stands after the header of a log.
pub fn entry_of<'a>(
    rt: &(impl Abort + AllocGlobal),
    log: &'a [u8],
    room: &'a mut ReadBuffers,
) -> Timed<'a>
    ensures { Fits result.what }
{
    let mut reader = LogReader::new(rt.alloc()).expect(rt, "memory");
    match reader.feed(log, room) {
        Ok(
            LogFed {
                entry: Some(entry),
                ..
            },
        ) => entry,
        _ => panic!(rt; "no entry"),
    }
}
