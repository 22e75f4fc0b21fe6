//! The text of an entry alone, and a report.

ghost use Rattle.std.specs.Prelude.{◌<◌};
ghost use Rattle.fw_log_entry.specs.Log.{Fits};

use fw_cip::Talker;
use fw_log_entry::codes::{event, outcome};
use fw_log_entry::{Entry, EventEntry, OutcomeEntry, ShownEntry, Timed};
use fw_log_text::{StreamReport, entry_text};
use std::alloc::{AllocError, Global};
use std::test::Fail;

// Whether this is the line of an entry of cycle 8000.
fn is_line(alloc: Global, what: Entry<'_>, line: &str) -> Result<bool, AllocError>
    requires { Fits what }
{
    let text = entry_text(alloc, &Timed { cycle: 8000, what })?;
    Ok(text.as_str() == line)
}

#[test]
fn an_entry_has_one_line(rt: HostRuntime) -> Result<(), Fail> {
    let inserted = EventEntry {
        code: event::INSERTED,
        device: 2,
        tape: 5,
        system: 625,
    };
    let plug_full = OutcomeEntry {
        code: outcome::PLUG_FULL,
        device: 1,
        slot: 31,
        value: 0xbf00_207a,
    };
    let shown = ShownEntry {
        device: 3,
        offset: 0x984,
        word: 0xffff,
    };
    let alloc = rt.alloc();
    let line = "8000 event inserted 2 5 625\n";
    assert!(rt; is_line(alloc, Entry::Event(inserted), line)?);
    let line = "8000 outcome plug-full 1 31 bf00207a\n";
    assert!(rt; is_line(alloc, Entry::Outcome(plug_full), line)?);
    let line = "8000 shown 3 984 0000ffff\n";
    assert!(rt; is_line(alloc, Entry::Shown(shown), line)?);
    assert!(rt; is_line(alloc, Entry::End, "8000 end\n")?);
    Ok(())
}

// An entry of a packet on this channel, with this count, with a block or without one.
fn packet<'a>(channel: u8, dbc: u8, block: Option<&'a [u8; 480]>) -> Timed<'a>
    requires { channel < 64 }
    ensures { Fits result.what }
{
    let mut talker = Talker::new(channel);
    talker.skip(u64::from(dbc));
    let packet = talker.cycle(0, false, block);
    Timed {
        cycle: 8001,
        what: Entry::Iso(packet),
    }
}

#[test]
fn a_report_has_a_line_for_each_channel(rt: HostRuntime) -> Result<(), Fail> {
    let alloc = rt.alloc();
    let mut report = StreamReport::new();
    let block = [7; 480];
    assert!(rt; report.text(alloc)?.as_str() == "");
    // The packets of a camcorder that begins to play: an empty one, fourteen blocks, and an empty one.
    report.take(&packet(0, 0, None));
    for dbc in 0..14 {
        report.take(&packet(0, dbc, Some(&block)));
    }
    report.take(&packet(0, 14, None));
    // On the last channel two blocks are lost, and an empty packet is repeated.
    for (dbc, full) in [(255, true), (0, false), (2, true), (2, false), (3, true)] {
        report.take(&packet(63, dbc, if full { Some(&block) } else { None }));
    }
    report.take(&Timed {
        cycle: 8001,
        what: Entry::End,
    });
    assert!(rt;
        report.text(alloc)?.as_str()
            == "channel 0 packets 16 blocks 14 empty 2 gaps 0\nchannel 63 packets 5 blocks 3 empty 2 gaps 2\n"
    );
    Ok(())
}
