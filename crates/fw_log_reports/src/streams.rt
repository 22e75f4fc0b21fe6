//! `dv`: a report of the streams of a log, at its end.

ghost use Rattle.std.specs.Prelude.{◌<◌, [], take, None};
ghost use Rattle.fw_log_text.specs.Report.{report_text};
ghost use Rattle.fw_log_loop.specs.Endings.{ReadsLog};
ghost use Rattle.fw_log_reports.specs.Texts.{silent_form};
ghost use Rattle.fw_log_reports.specs.Silences.{never_refused};

use crate::LogRefusal;
use fw_cip::whole_iso;
use fw_log::{LogReader, PlainBody, ReadBuffers, Timed};
use fw_log_loop::{Closing, LogEnding, Reading, read_log};
use fw_log_text::StreamReport;
use fw_outside::{Failed, Flush, Sink, Source};
use std::alloc::{AllocError, Global};

// What the channels of the entries carry.
#[derive(Drop)]
struct Streams {
    report: StreamReport,
}

impl Reading for Streams {
    type Refusal = LogRefusal;

    ghost use Rattle.fw_log_text.specs.Tallies.{Reports};
    ghost use Rattle.fw_log_reports.specs.Silences.{none_unrefused};
    ghost use Rattle.fw_log_reports.specs.Texts.{silent_each};

    ghost form = { λ s. silent_form };

    ghost rules = { never_refused report_text };

    ghost took = { λ s entries. Reports entries s.report };

    ghost gathered = { λ s. [] };

    fn open<K: Sink>(&self, _sink: &mut K) -> Result<(), Failed> {
        Ok(())
    }

    fn take(&mut self, entry: &Timed, _bytes: &[u8]) -> Result<Option<LogRefusal>, AllocError> {
        self.report.take(entry);
        Ok(None)
    }

    // Entries of no stream have no part in the report; of an isochronous packet it takes what it counts.
    fn take_raw(
        &mut self,
        reader: &mut LogReader,
        room: &mut ReadBuffers,
        piece: &[u8],
    ) -> Result<Option<usize>, AllocError> {
        let Some(passed) = reader.pass_body(piece, room) else {
            return Ok(reader.take_raw(piece, room));
        };
        if let PlainBody::Iso(bytes) = &passed.body {
            self.report.take_packet(&whole_iso(bytes.as_slice()));
        }
        Ok(Some(passed.used))
    }

    fn gathered(&self) -> &[u8] {
        &[]
    }

    fn clear(&mut self) {}

    fn close(&self, alloc: Global) -> Result<Closing<LogRefusal>, AllocError> {
        Ok(Closing::Text(self.report.text(alloc)?))
    }

    ghost each = { λ s. silent_each };

    ghost accepted = { λ s entries t. tt };

    ghost unrefused = { λ entries h. none_unrefused report_text entries };
}

/// Reads a log, and writes at its end a line for each channel that has isochronous packets: how many, how many with a block of
/// data and without one, and how many at which data is missing. Nothing is written before.
pub fn dv<S: Source, K: Flush>(alloc: Global, source: &mut S, sink: &mut K) -> LogEnding<LogRefusal>
    ensures { ReadsLog silent_form (never_refused report_text) (record { left = S.left; faults = S.faults; old = source.old; new = source.new })
        (record { held = K.held; faults = K.faults; old = sink.old; new = sink.new }) result }
{
    let report = StreamReport::new();
    read_log(alloc, Streams { report }, source, sink)
}
