//! `json`: each entry as a JSON object, as it ends.

ghost use Rattle.std.specs.Prelude.{◌≡◌, ◌<◌, ◌++◌, [], IfOk, None, OnOk, take};
ghost use Rattle.fw_log_entry.specs.Log.{ResetFits, body};
ghost use Rattle.fw_log_entry.specs.declared.entry.Entry.{Entry as AnEntry};
ghost use Rattle.fw_log_entry.specs.declared.entry.Entry.TheVariants.{Reset};
ghost use Rattle.fw_log_entry.specs.declared.entry.ResetEntry.{ResetEntry};
ghost use Rattle.fw_log.specs.Passing.{HasBody};
ghost use Rattle.fw_log_text.specs.Resets.{IsResetBody};
ghost use Rattle.fw_log_loop.specs.Endings.{ReadsLog};
ghost use Rattle.fw_log_json.specs.Objects.{object};
ghost use Rattle.fw_log_reports.specs.Silences.{never_refused};
ghost use Rattle.fw_log_reports.specs.Texts.{nothing};
ghost use Rattle.fw_log_words.specs.Texts.{each_form};

use crate::LogRefusal;
use fw_cip::whole_iso;
use fw_log::{LogReader, PlainBody, ReadBuffers, Timed};
use fw_log_json::{
    ObjectRoom, put_iso_from, put_object, put_packet_from, put_reset_again, put_reset_from,
};
use fw_log_loop::{Closing, LogEnding, Reading, Stop, read_log};
use fw_log_reports::WholeRoom;
use fw_outside::{Failed, Flush, Sink, Source};
use fw_words::quadlet_at;
use std::alloc::{AllocError, Global};

/// The objects of entries.
#[derive(Drop)]
pub(crate) struct Objects {
    room: ObjectRoom,
    whole: WholeRoom,
}

impl Objects {
    /// None. An error says that memory ran out.
    pub(crate) fn new(alloc: Global) -> Result<Objects, AllocError>
        ensures { IfOk result (λ o. o.room ≡ []) }
    {
        Ok(Objects {
            room: ObjectRoom::new(alloc)?,
            whole: WholeRoom::new(alloc)?,
        })
    }

    /// Appends the object of an entry of this cycle that has this body. An error says that memory ran out.
    pub(crate) fn put_body(&mut self, cycle: u64, body: &PlainBody) -> Result<(), AllocError>
        requires { (e : AnEntry) × HasBody body.now e }
        ensures { (e : AnEntry) → HasBody body.now e → OnOk result (self.new.room ≡ self.old.room ++ object (record { cycle = cycle; what = e })) }
    {
        match body {
            PlainBody::Packet(bytes) => put_packet_from(&mut self.room, cycle, bytes.as_slice()),
            PlainBody::Iso(bytes) => {
                put_iso_from(&mut self.room, cycle, &whole_iso(bytes.as_slice()))
            }
            PlainBody::Reset(bytes) => {
                put_reset(&mut self.room, &mut self.whole, cycle, bytes.as_slice())
            }
        }
    }
}

// Appends the object of a bus reset of this cycle, whose body these bytes are: mostly it tells what the one before told.
fn put_reset(
    room: &mut ObjectRoom,
    whole: &mut WholeRoom,
    cycle: u64,
    bytes: &[u8],
) -> Result<(), AllocError>
    requires { IsResetBody bytes.now }
    ensures { (r : ResetEntry) → ResetFits r → body (Reset r) ≡ bytes.now → OnOk result (room.new ≡ room.old ++ object (record { cycle = cycle; what = Reset r })) }
{
    let epoch = quadlet_at(bytes, 0).0;
    let later = &bytes[4..];
    let is_told = put_reset_again(room, cycle, epoch, later)?;
    if is_told {
        return Ok(());
    }
    put_reset_from(room, cycle, whole.make_reset(bytes), later)
}

impl Reading for Objects {
    type Refusal = LogRefusal;

    ghost use Rattle.fw_log_reports.specs.Silences.{none_unrefused};
    ghost use Rattle.fw_log_words.specs.Texts.{each_alone};

    ghost form = { λ s. each_form object };

    ghost rules = { never_refused nothing };

    ghost took = { λ s entries. Unit {0} };

    ghost gathered = { λ s. s.room };

    fn open<K: Sink>(&self, _sink: &mut K) -> Result<(), Failed> {
        Ok(())
    }

    fn take(&mut self, entry: &Timed, _bytes: &[u8]) -> Result<Option<LogRefusal>, AllocError> {
        put_object(&mut self.room, entry)?;
        Ok(None)
    }

    // No fault of a packet or a bus reset of a usual form is looked for twice.
    fn take_raw(
        &mut self,
        reader: &mut LogReader,
        room: &mut ReadBuffers,
        piece: &[u8],
    ) -> Result<Option<usize>, AllocError> {
        let Some(passed) = reader.pass_body(piece, room) else {
            return Ok(None);
        };
        self.put_body(passed.cycle, &passed.body)?;
        Ok(Some(passed.used))
    }

    fn gathered(&self) -> &[u8] {
        self.room.as_slice()
    }

    fn clear(&mut self) {
        self.room.clear();
    }

    fn close(&self, alloc: Global) -> Result<Closing<LogRefusal>, AllocError> {
        Ok(Closing::Text(String::new(alloc)))
    }

    ghost each = { λ s. each_alone object };

    ghost accepted = { λ s entries t. tt };

    ghost unrefused = { λ entries h. none_unrefused nothing entries };
}

/// Reads a log, and writes each entry as a JSON object in a line of its own, with every field.
///
/// The lines of the entries that ended are written before more is read, as those of `decode` are.
pub fn json<S: Source, K: Flush>(
    alloc: Global,
    source: &mut S,
    sink: &mut K,
) -> LogEnding<LogRefusal>
    ensures { ReadsLog (each_form object) (never_refused nothing) (record { left = S.left; faults = S.faults; old = source.old; new = source.new })
        (record { held = K.held; faults = K.faults; old = sink.old; new = sink.new }) result }
{
    match Objects::new(alloc) {
        Ok(objects) => read_log(alloc, objects, source, sink),
        Err(_) => LogEnding::Stopped(Stop::NoMemory),
    }
}
