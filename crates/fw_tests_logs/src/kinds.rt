//! Each kind of entry, both ways, and a fault that is answered again. What the entries say is told by the session `each_kind` of
//! `fire_sessions`.

ghost use Rattle.std.specs.Prelude.{◌<◌, ◌^◌, length};
ghost use Rattle.fw_log_entry.specs.Log.{TimedFits};

use fw_log::{
    LogFault, LogFed, LogReader, LogWhy, ReadBuffers, Timed, Version, write_entry, write_header,
};
use fw_log_entry::{EntryRoom, epoch_after};
use fw_outside::MemSink;
use std::alloc::{AllocError, Global};
use std::test::Fail;

const HEADER: &str = "31333934000000010000000000000000";

// A log of version 1 of one entry, in hexadecimal.
fn log_of(alloc: Global, text: &str) -> Result<Vec<u8>, Fail> {
    let mut log = hex::decode(alloc, HEADER)?;
    let spelled = hex::decode(alloc, text)?;
    log.extend_from_slice(&spelled)?;
    Ok(log)
}

// Whether an entry is written as this log.
fn is_written_as(alloc: Global, entry: &Timed, log: &[u8]) -> Result<bool, AllocError>
    requires { TimedFits entry.now }
{
    let mut room = EntryRoom::new(alloc)?;
    let mut sink = MemSink::new(alloc, log.len(), Vec::new(alloc))?;
    let epoch = epoch_after(0, &entry.what);
    let is_written = write_header(Version::One, &mut sink).is_ok()
        && write_entry(Version::One, epoch, entry, &mut room, &mut sink).is_ok();
    Ok(is_written && sink.as_slice() == log)
}

// Whether one entry is read of a log, which is written as it.
fn is_both_ways(alloc: Global, log: &[u8]) -> Result<bool, AllocError>
    requires { length log.now < 2 ^ 32 }
{
    let mut reader = LogReader::new(alloc)?;
    let mut room = ReadBuffers::new(alloc)?;
    match reader.feed(log, &mut room) {
        Ok(
            LogFed {
                used,
                entry: Some(entry),
                ..
            },
        ) => Ok(used == log.len() && is_written_as(alloc, &entry, log)?),
        _ => Ok(false),
    }
}

// The bytes of each kind were put together by hand from the layouts of the log and of the standard.
const KINDS: [&str; 7] = [
    "010000050000000000000000000000090000000107010202807f8c527f8073ad",
    "020000040000000000000001ffc11500ffc0fffff0000904803f007a",
    "03000003000000000000000200087fa3027800158000ffff",
    "04000002000000000000000304020000000c0271",
    "05000002000000000001000401030200ffffff3f",
    "0600000200000000000000050a000904803f007a",
    "070000000000000000000006",
];

#[test]
fn each_kind_of_entry(rt: HostRuntime) -> Result<(), Fail> {
    let alloc = rt.alloc();
    for &text in &KINDS {
        let log = log_of(alloc, text)?;
        assert!(rt; log.len() < 1000);
        assert!(rt; is_both_ways(alloc, &log)?, "{text}");
    }
    Ok(())
}

// A header of version 3.
const VERSION_3: [u8; 8] = [0x31, 0x33, 0x39, 0x34, 0, 0, 0, 3];

const FAULT: LogFault = LogFault {
    place: 4,
    why: LogWhy::BadHeader,
};

#[test]
fn a_fault_is_answered_again(rt: HostRuntime) -> Result<(), Fail> {
    let good = hex::decode(rt.alloc(), HEADER)?;
    assert!(rt; good.len() == 16);
    let mut reader = LogReader::new(rt.alloc())?;
    let mut room = ReadBuffers::new(rt.alloc())?;
    assert!(rt; reader.feed(&VERSION_3, &mut room).err() == Some(FAULT));
    assert!(rt; reader.feed(&good, &mut room).err() == Some(FAULT));
    assert!(rt; reader.finish() == Err(FAULT));
    assert!(rt; reader.finish() == Err(FAULT));
    assert!(rt; reader.feed(&[], &mut room).err() == Some(FAULT));
    Ok(())
}
