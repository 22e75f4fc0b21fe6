//! Entries that are read out of a loop over packets.

ghost use Rattle.std.specs.Prelude.{ℕ, ◌≡◌, ◌<◌, ◌+◌, ◌^◌, ◌++◌, List, length, IfSome, IfNone, IfOk, IfErr, IsTrue, IsFalse, None, Err};
ghost use Rattle.fw_log_entry.specs.declared.entry.Timed.{Timed};
ghost use Rattle.fw_log.specs.Reading.{IsPending};
ghost use Rattle.fw_log.specs.Reader.{total, with_bytes, Remembers, Feeds, Counts, body_given};
ghost use Rattle.fw_log.specs.History.{HasRead, ReadsOn, Names};

use crate::extent::is_part;
use crate::first::at_hand;
use crate::first_look::annotation_found;
use crate::{LogFault, LogFed, LogReader, ReadBuffers};

impl LogReader {
    /// Takes all of a piece and answers that it did, if no byte is kept and the piece is a part of one entry with its head, all parts of
    /// which are right, as most entries begin that a piece's end cuts. Else `feed` says what comes.
    #[inline(never)]
    pub fn keep_part(&mut self, piece: &[u8]) -> bool
        requires { self.old.fault ≡ None }
        ensures kept { IsFalse result → self.new ≡ self.old }
        ensures part { IsTrue result → (self.new ≡ with_bytes self.old.stand (self.old.taken ++ piece.now)) × IsPending self.old.stand (self.old.taken ++ piece.now) }
        ensures history { IsTrue result → (entries : List Timed) → (bytes : List ℕ) → HasRead entries bytes self.old → HasRead entries (bytes ++ piece.now) self.new }
    {
        if !self.taken.as_slice().is_empty() || !is_part(self.stand, piece) {
            return false;
        }
        self.taken.append(piece);
        true
    }

    // As `feed_fresh`, if most entries are annotations, and no packet of a usual form is looked for.
    #[inline(never)]
    fn feed_first<'a>(
        &mut self,
        piece: &'a [u8],
        room: &'a mut ReadBuffers,
    ) -> Result<LogFed<'a>, LogFault>
        requires fresh { self.old.fault ≡ None }
        requires pending { IsPending self.old.stand self.old.taken }
        requires room { self.old.stand.start + length self.old.taken + length piece.now < 2 ^ 64 }
        ensures fed { Feeds self.old.stand self.old.taken piece.now result self.new }
        ensures remembers { IfErr result (λ f. Remembers self.old.stand self.old.taken piece.now self.new) }
    {
        let bytes = at_hand(self.stand, self.taken.as_slice(), piece, &mut room.bytes);
        match annotation_found(self.stand, bytes) {
            Some(found) => self.keep(Ok(Some(found)), piece),
            None => self.feed_other(bytes, piece, &mut room.reset),
        }
    }

    /// Takes bytes as `feed` does, in more instructions if a packet comes, and in fewer if another entry does: for those that take
    /// packets by `pass_body`, and parts of entries by `keep_part`. What it reads is no part of the caller's loop.
    #[inline(always)]
    pub fn feed_apart<'a>(
        &mut self,
        piece: &'a [u8],
        room: &'a mut ReadBuffers,
    ) -> Result<LogFed<'a>, LogFault>
        requires { self.old.fault ≡ None → total self.old + length piece.now < 2 ^ 64 }
        ensures kept { IfSome self.old.fault (λ f. (result ≡ Err f) × (self.new ≡ self.old)) }
        ensures fresh { IfNone self.old.fault (Feeds self.old.stand self.old.taken piece.now result self.new) }
        ensures counts { Counts self.old piece.now result self.new }
        ensures body { IfOk result (λ fed. fed.body ≡ body_given fed.entry) }
        ensures history { (entries : List Timed) → (bytes : List ℕ) → HasRead entries bytes self.old → ReadsOn entries bytes piece.now result self.new }
        ensures version { (entries : List Timed) → (bytes : List ℕ) → HasRead entries bytes self.old → Names bytes piece.now result self.new }
    {
        match self.fault {
            Some(fault) => Err(fault),
            None => self.feed_first(piece, room),
        }
    }
}
