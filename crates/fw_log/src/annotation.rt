//! Events, outcomes of commands and registers that were shown, taken as their bytes.

ghost use Rattle.std.specs.Prelude.{ℕ, ◌≡◌, ◌<◌, ◌+◌, ◌^◌, ◌++◌, List, length, take, IfSome, IfNone, None};
ghost use Rattle.fw_log_entry.specs.declared.entry.Timed.{Timed};
ghost use Rattle.fw_log.specs.Reader.{total};
ghost use Rattle.fw_log.specs.History.{HasRead};
ghost use Rattle.fw_log.specs.Passing.{CountsUp, IsAnnotationBody, PassesAnnotation};

use crate::ReadBuffers;
use crate::first::at_hand;
use crate::first_look::{PlainHead, plain_annotation};
use crate::passing::going_on;
use crate::read::LogReader;
use fw_words::Data;

/// An annotation that was taken as its bytes: an event, the outcome of a command, or a register that was shown.
#[derive(Drop)]
pub struct PassedAnnotation<'a> {
    /// How many bytes of the piece were taken.
    pub used: usize,
    /// The cycle of the entry.
    pub cycle: u64,
    /// The bytes of its body, 4 or 8.
    pub body: Data<'a>,
}

impl LogReader {
    /// Takes bytes up to the end of one entry, as `feed` does, if that is an event, an outcome or a register that was shown, of this
    /// kind (the first byte of its entry) and right at the first look. No entry is made of it. If it takes none, `feed` says what
    /// comes. Not in line: such entries are few beside packets.
    #[inline(never)]
    pub fn pass_annotation<'a>(
        &mut self,
        kind: u8,
        piece: &'a [u8],
        room: &'a mut ReadBuffers,
    ) -> Option<PassedAnnotation<'a>>
        requires { self.old.fault ≡ None → total self.old + length piece.now < 2 ^ 64 }
        ensures kept { IfNone result (self.new ≡ self.old) }
        ensures fresh { IfSome result (λ p. self.new.fault ≡ None) }
        ensures counts { IfSome result (λ p. CountsUp self.old piece.now self.new p.used) }
        ensures body { IfSome result (λ p. IsAnnotationBody kind p.body) }
        ensures history { (entries : List Timed) → (bytes : List ℕ) → HasRead entries bytes self.old
            → IfSome result (λ p. PassesAnnotation entries (bytes ++ take p.used piece.now) self.new kind p) }
    {
        if self.fault.is_some() {
            return None;
        }
        let bytes = at_hand(self.stand, self.taken.as_slice(), piece, &mut room.bytes);
        let PlainHead {
            passed,
            content,
            ..
        } = plain_annotation(self.stand, bytes, kind)?;
        let used = passed.end - self.taken.as_slice().len();
        let past = self.stand.start() + passed.end as u64;
        self.stand = going_on(past, passed.cycle, passed.version, passed.epoch);
        self.taken.clear();
        Some(PassedAnnotation {
            used,
            cycle: passed.cycle,
            body: content,
        })
    }
}
