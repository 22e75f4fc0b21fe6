//! `explain`: each entry in words, as it ends.

ghost use Rattle.std.specs.Prelude.{◌≡◌, ◌<◌, ◌++◌, [], IfOk, None, OnOk, take};
ghost use Rattle.fw_log_entry.specs.Log.{ResetFits, body};
ghost use Rattle.fw_log_entry.specs.declared.entry.Entry.{Entry as AnEntry};
ghost use Rattle.fw_log_entry.specs.declared.entry.Entry.TheVariants.{Reset};
ghost use Rattle.fw_log_entry.specs.declared.entry.ResetEntry.{ResetEntry};
ghost use Rattle.fw_log_explain.specs.Lines.{line};
ghost use Rattle.fw_log_requests.specs.Requests.{standing_after};
ghost use Rattle.fw_log.specs.Passing.{HasBody};
ghost use Rattle.fw_log_text.specs.Resets.{IsResetBody};
ghost use Rattle.fw_log_loop.specs.Endings.{ReadsLog};
ghost use Rattle.fw_log_reports.specs.Texts.{nothing};
ghost use Rattle.fw_log_words.specs.Texts.{explained_form};
ghost use Rattle.fw_log_reports.specs.Silences.{never_refused};

use crate::LogRefusal;
use fw_cip::whole_iso;
use fw_log::{LogReader, PlainBody, ReadBuffers, Timed};
use fw_log_explainer::Explainer;
use fw_log_loop::{Closing, LogEnding, Reading, Stop, read_log};
use fw_log_reports::WholeRoom;
use fw_outside::{Failed, Flush, Sink, Source};
use fw_words::quadlet_at;
use std::alloc::{AllocError, Global};

/// The lines of entries in words, and the outstanding requests after them.
#[derive(Drop)]
pub(crate) struct Explanation {
    explainer: Explainer,
    whole: WholeRoom,
}

impl Explanation {
    /// Of no entries. An error says that memory ran out.
    pub(crate) fn new(alloc: Global) -> Result<Explanation, AllocError>
        ensures text { IfOk result (λ e. e.explainer.text ≡ []) }
        ensures requests { IfOk result (λ e. e.explainer.requests ≡ []) }
    {
        Ok(Explanation {
            explainer: Explainer::new(alloc)?,
            whole: WholeRoom::new(alloc)?,
        })
    }

    /// Appends the line of an entry of this cycle that has this body. An error says that memory ran out.
    pub(crate) fn put_body(&mut self, cycle: u64, body: &PlainBody) -> Result<(), AllocError>
        requires { (e : AnEntry) × HasBody body.now e }
        ensures line { (e : AnEntry) → HasBody body.now e
            → OnOk result (self.new.explainer.text ≡ self.old.explainer.text ++ line self.old.explainer.requests (record { cycle = cycle; what = e })) }
        ensures requests { (e : AnEntry) → HasBody body.now e → OnOk result (self.new.explainer.requests ≡ standing_after e self.old.explainer.requests) }
    {
        match body {
            PlainBody::Packet(bytes) => self.explainer.put_packet_from(cycle, bytes.as_slice()),
            PlainBody::Iso(bytes) => {
                self.explainer
                    .put_iso_from(cycle, &whole_iso(bytes.as_slice()))
            }
            PlainBody::Reset(bytes) => put_reset(
                &mut self.explainer,
                &mut self.whole,
                cycle,
                bytes.as_slice(),
            ),
        }
    }
}

// Appends the line of a bus reset of this cycle, whose body these bytes are: mostly it tells what the one before told.
fn put_reset(
    explainer: &mut Explainer,
    whole: &mut WholeRoom,
    cycle: u64,
    bytes: &[u8],
) -> Result<(), AllocError>
    requires { IsResetBody bytes.now }
    ensures line { (r : ResetEntry) → ResetFits r → body (Reset r) ≡ bytes.now
        → OnOk result (explainer.new.text ≡ explainer.old.text ++ line explainer.old.requests (record { cycle = cycle; what = Reset r })) }
    ensures requests { OnOk result (explainer.new.requests ≡ []) }
{
    let epoch = quadlet_at(bytes, 0).0;
    let later = &bytes[4..];
    let is_told = explainer.put_reset_again(cycle, epoch, later)?;
    if is_told {
        return Ok(());
    }
    explainer.put_reset_from(cycle, whole.make_reset(bytes), later)
}

impl Reading for Explanation {
    type Refusal = LogRefusal;

    ghost use Rattle.fw_log_requests.specs.Requests.{standing};
    ghost use Rattle.fw_log_reports.specs.Silences.{none_unrefused};
    ghost use Rattle.fw_log_words.specs.Texts.{explained_each};

    ghost form = { λ s. explained_form };

    ghost rules = { never_refused nothing };

    ghost took = { λ s entries. s.explainer.requests ≡ standing entries };

    ghost gathered = { λ s. s.explainer.text };

    fn open<K: Sink>(&self, _sink: &mut K) -> Result<(), Failed> {
        Ok(())
    }

    fn take(&mut self, entry: &Timed, _bytes: &[u8]) -> Result<Option<LogRefusal>, AllocError> {
        self.explainer.put(entry)?;
        Ok(None)
    }

    // No fault of a packet or a bus reset of a usual form is looked for twice.
    fn take_raw(
        &mut self,
        reader: &mut LogReader,
        room: &mut ReadBuffers,
        piece: &[u8],
    ) -> Result<Option<usize>, AllocError> {
        let Some(passed) = reader.pass_body(piece, room) else {
            return Ok(None);
        };
        self.put_body(passed.cycle, &passed.body)?;
        Ok(Some(passed.used))
    }

    fn gathered(&self) -> &[u8] {
        self.explainer.as_slice()
    }

    fn clear(&mut self) {
        self.explainer.clear();
    }

    fn close(&self, alloc: Global) -> Result<Closing<LogRefusal>, AllocError> {
        Ok(Closing::Text(String::new(alloc)))
    }

    ghost each = { λ s. explained_each };

    ghost accepted = { λ s entries t. tt };

    ghost unrefused = { λ entries h. none_unrefused nothing entries };
}

/// Reads a log, and writes each entry in words in a line of its own; a response is told by the request that it answers.
///
/// The lines of the entries that ended are written before more is read, as those of `decode` are.
pub fn explain<S: Source, K: Flush>(
    alloc: Global,
    source: &mut S,
    sink: &mut K,
) -> LogEnding<LogRefusal>
    ensures { ReadsLog explained_form (never_refused nothing) (record { left = S.left; faults = S.faults; old = source.old; new = source.new })
        (record { held = K.held; faults = K.faults; old = sink.old; new = sink.new }) result }
{
    match Explanation::new(alloc) {
        Ok(explanation) => read_log(alloc, explanation, source, sink),
        Err(_) => LogEnding::Stopped(Stop::NoMemory),
    }
}
