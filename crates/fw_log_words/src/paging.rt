//! `page`: a log as a page of HTML, in which a viewer draws what four words say of each entry.

ghost use Rattle.std.specs.Prelude.{◌≡◌, ◌+◌, ◌<◌, ◌^◌, ◌++◌, ◌∷◌, [], List, length, IfOk, OnOk};
ghost use Rattle.fw_log_entry.specs.declared.entry.Entry.{Entry as AnEntry};
ghost use Rattle.fw_log_entry.specs.declared.entry.Timed.{Timed as TimedEntry};
ghost use Rattle.fw_log.specs.Passing.{HasBody};
ghost use Rattle.fw_log_loop.specs.Endings.{ReadsLog};
ghost use Rattle.fw_log_loop.specs.declared.ending.LogEnd.TheVariants.{Whole};
ghost use Rattle.fw_log_reports.specs.Texts.{nothing};
ghost use Rattle.fw_log_reports.specs.Silences.{never_refused};
ghost use Rattle.fw_log_words.specs.Pages.{page_form, entry_lines, closing_lines};
ghost use Rattle.fw_log_words.specs.Paged.{Begun, Pages};

use crate::LogRefusal;
use crate::explanation::Explanation;
use crate::held::Held;
use crate::marked::{put_gathered, put_lines};
use crate::objects::Objects;
use fw_log::{LogReader, PlainBody, ReadBuffers, Timed};
use fw_log_loop::{Closing, Framed, LogEnd, LogEnding, Reading, Stop, read_framed};
use fw_log_names::put_word;
use fw_log_reports::Watching;
use fw_outside::{Failed, Flush, Sink, Source};
use fw_page::{EXPLAIN, HEAD, TAIL, WATCH, put_log_line, put_marked};
use std::alloc::{AllocError, Global};

/// How many bytes of lines there is room for at first: more than 4,096 bytes of an ordinary log give.
const TEXT_ROOM: usize = 65_536;

// The lines of entries, and the words that they are of.
#[derive(Drop)]
struct Paging {
    text: Vec<u8>,
    objects: Objects,
    explanation: Explanation,
    held: Held,
    watching: Watching,
}

impl Paging {
    fn new(alloc: Global) -> Result<Paging, AllocError>
        ensures text { IfOk result (λ p. p.text.items ≡ []) }
        ensures pages { IfOk result (λ p. Pages p []) }
    {
        Ok(Paging {
            text: Vec::with_capacity(alloc, TEXT_ROOM)?,
            objects: Objects::new(alloc)?,
            explanation: Explanation::new(alloc)?,
            held: Held::new(alloc)?,
            watching: Watching::new(alloc)?,
        })
    }

    // Appends the lines of the entry of this cycle that has this body, which `holders` has passed.
    fn put_body(&mut self, cycle: u64, body: &PlainBody) -> Result<(), AllocError>
        requires { (e : AnEntry) × HasBody body.now e }
        ensures { (entries : List TimedEntry) (t : TimedEntry) → t.cycle ≡ cycle → HasBody body.now t.what → Begun entries t self.old
            → OnOk result ((self.new.text.items ≡ self.old.text.items ++ entry_lines entries t) × Pages self.new (entries ++ t ∷ [])) }
    {
        self.objects.put_body(cycle, body)?;
        put_gathered(&mut self.text, &mut self.objects)?;
        self.explanation.put_body(cycle, body)?;
        put_lines(&mut self.text, EXPLAIN, &mut self.explanation)?;
        self.held.put_passed(&mut self.text)?;
        self.watching.put(cycle, body)?;
        put_lines(&mut self.text, WATCH, &mut self.watching)
    }

    // Appends the closing lines of `watch` and `holders`, if the log ended as it should.
    fn put_closing(&mut self, end: LogEnd) -> Result<(), AllocError>
        ensures { (entries : List TimedEntry) → Pages self.old entries → OnOk result (self.new.text.items ≡ self.old.text.items ++ closing_lines entries end) }
    {
        if !matches!(end, LogEnd::Whole) {
            return Ok(());
        }
        let alloc = *self.text.allocator();
        let last = self.watching.last_line(alloc)?;
        put_marked(&mut self.text, WATCH, last.as_bytes())?;
        self.held.put_table(&mut self.text, alloc)
    }
}

impl Reading for Paging {
    type Refusal = LogRefusal;

    ghost use Rattle.fw_log_reports.specs.Silences.{none_unrefused};
    ghost use Rattle.fw_log_words.specs.Pages.{page_each};

    ghost form = { λ s. page_form };

    ghost rules = { never_refused nothing };

    ghost took = { λ s entries. Pages s entries };

    ghost gathered = { λ s. s.text.items };

    fn open<K: Sink>(&self, _sink: &mut K) -> Result<(), Failed> {
        Ok(())
    }

    fn take(&mut self, entry: &Timed, bytes: &[u8]) -> Result<Option<LogRefusal>, AllocError> {
        self.objects.take(entry, bytes)?;
        put_gathered(&mut self.text, &mut self.objects)?;
        self.explanation.take(entry, bytes)?;
        put_lines(&mut self.text, EXPLAIN, &mut self.explanation)?;
        self.held.put(&mut self.text, entry, bytes)?;
        self.watching.take(entry, bytes)?;
        put_lines(&mut self.text, WATCH, &mut self.watching)?;
        Ok(None)
    }

    // No fault of a packet or a bus reset of a usual form is looked for twice.
    fn take_raw(
        &mut self,
        reader: &mut LogReader,
        room: &mut ReadBuffers,
        piece: &[u8],
    ) -> Result<Option<usize>, AllocError> {
        let Some(next) = reader.next_body(piece, room) else {
            return Ok(None);
        };
        if !self.held.pass_body(next.passed.cycle, &next.body)? {
            return Ok(None);
        }
        self.put_body(next.passed.cycle, &next.body)?;
        Ok(Some(reader.go_past(piece, &next.passed)))
    }

    fn gathered(&self) -> &[u8] {
        &self.text
    }

    fn clear(&mut self) {
        self.text.clear();
    }

    fn close(&self, alloc: Global) -> Result<Closing<LogRefusal>, AllocError> {
        Ok(Closing::Text(String::new(alloc)))
    }

    ghost each = { λ s. page_each };

    ghost accepted = { λ s entries t. tt };

    ghost unrefused = { λ entries h. none_unrefused nothing entries };
}

impl Framed for Paging {
    ghost use Rattle.fw_log_words.specs.Pages.{page_frame, nothing_last};

    fn begin<K: Sink>(&self, sink: &mut K) -> Result<(), Failed> {
        sink.write(HEAD.as_bytes())
    }

    fn end(&mut self, end: LogEnd) -> Result<(), AllocError> {
        self.put_closing(end)?;
        put_log_line(&mut self.text, end)?;
        put_word(&mut self.text, TAIL)
    }

    ghost frame = { λ s. page_frame (never_refused nothing) nothing_last };
}

/// Reads a log, and writes it as a page of HTML that stands alone (`docs/PAGE.md`): its head before anything is read, the lines of the
/// entries that ended before more is read, and the end of the page also if the bytes are no log or too many come.
pub fn page<S: Source, K: Flush>(
    alloc: Global,
    source: &mut S,
    sink: &mut K,
) -> LogEnding<LogRefusal>
    ensures { ReadsLog page_form (never_refused nothing) (record { left = S.left; faults = S.faults; old = source.old; new = source.new })
        (record { held = K.held; faults = K.faults; old = sink.old; new = sink.new }) result }
{
    match Paging::new(alloc) {
        Ok(paging) => read_framed(alloc, paging, source, sink),
        Err(_) => LogEnding::Stopped(Stop::NoMemory),
    }
}
