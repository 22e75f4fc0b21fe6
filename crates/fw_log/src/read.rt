//! A reader of logs.

ghost use Rattle.std.specs.Prelude.{ℕ, ◌≡◌, ◌<◌, ◌+◌, ◌-◌, ◌^◌, ◌++◌, [], List, length};
ghost use Rattle.std.specs.Prelude.{IfSome, IfNone, IfOk, IfErr, Some, None, Ok, Err};
ghost use Rattle.fw_log_entry.specs.Log.{is_end, body, epoch_after, LogOpens};
ghost use Rattle.fw_log_entry.specs.declared.version.Version.{Version as AVersion};
ghost use Rattle.fw_log_entry.specs.declared.version.Version.TheVariants.{One};
ghost use Rattle.fw_log.specs.Stands.{position};
ghost use Rattle.fw_log.specs.Reading.{IsPending};
ghost use Rattle.fw_log.specs.Reader.{State, total, with_bytes, Remembers, FindsIn, Joins};
ghost use Rattle.fw_log.specs.Reader.{EndsEntry, EndsNothing, ShowsFault, Feeds, Counts, body_given};
ghost use Rattle.fw_log.specs.History.{stand_after, HasRead, ReadsOn, Names, GivesNext};
ghost use Rattle.fw_log.specs.declared.LogFault.{LogFault};
ghost use Rattle.fw_log_entry.specs.declared.entry.Timed.{Timed};

use crate::first::{Found, at_hand, first_entry};
use crate::first_look::plain_found;
use crate::held::SplitEntry;
use crate::log_position::LogPosition;
use crate::version::remember;
use crate::{Entry, LogFault, ReadBuffers, ResetEntry, Timed, Version};
use fw_log_entry::epoch_after;
use fw_words::Data;
use std::alloc::{AllocError, Global};
use std::marker::Model;
use std::num::NonZero;

/// What a piece gave.
#[derive(Drop)]
pub struct LogFed<'a> {
    /// How many of its bytes were taken.
    pub used: usize,
    /// The entry that ended with them, if one did.
    pub entry: Option<Timed<'a>>,
    /// The bytes of that entry's body; empty if none ended.
    pub body: Data<'a>,
}

// Where a reader stands after an entry that ends at this place, if this is the epoch of the latest bus reset before it.
fn position_after(place: u64, version: Version, epoch: u32, entry: &Timed) -> LogPosition
    requires { 0 < place }
    ensures { position result ≡ record { start = place; last = entry.now.cycle; ended = is_end entry.now.what; version = version; epoch = epoch_after epoch entry.now.what } }
{
    let Some(past) = NonZero::<u64>::new(place) else {
        unreachable!()
    };
    let last = entry.cycle;
    match entry.what {
        Entry::End => LogPosition::Ended {
            past,
            last,
            version,
            epoch,
        },
        _ => LogPosition::Entries {
            past,
            last,
            version,
            epoch: epoch_after(epoch, &entry.what),
        },
    }
}

/// Reads the entries of a log from bytes that come in any pieces.
#[derive(Drop)]
pub struct LogReader {
    pub(crate) taken: Box<SplitEntry>,
    pub(crate) stand: LogPosition,
    pub(crate) fault: Option<LogFault>,
}

impl Model for LogReader {
    ghost use Rattle.fw_log.specs.Stands.{position};
    ghost use Rattle.fw_log.specs.Reader.{State, HoldsPending};

    ghost Value = { State };

    ghost view = { λ r. record { stand = position r.stand; taken = r.taken.value; fault = r.fault } };

    ghost invariant = { λ r. HoldsPending (position r.stand) r.taken.value r.fault };
}

impl LogReader {
    /// No byte was taken. It makes the room for a header and the longest entry; no other call takes memory.
    pub fn new(alloc: Global) -> Result<Self, AllocError>
        ensures stand { IfOk result (λ r. r ≡ with_bytes (stand_after One []) []) }
        ensures begins { IfOk result (HasRead [] []) }
    {
        Ok(LogReader {
            taken: Box::new(alloc, SplitEntry::new())?,
            stand: LogPosition::Header,
            fault: None,
        })
    }

    // Takes what was found in the bytes that were kept and, after them, in the piece.
    #[inline(always)]
    pub(crate) fn keep<'a>(
        &mut self,
        found: Result<Option<Found<'a>>, LogFault>,
        piece: &[u8],
    ) -> Result<LogFed<'a>, LogFault>
        requires fresh { self.old.fault ≡ None }
        requires pending { IsPending self.old.stand self.old.taken }
        requires room { self.old.stand.start + length self.old.taken + length piece.now < 2 ^ 64 }
        requires found { FindsIn self.old.stand self.old.taken piece.now found }
        ensures fed { Feeds self.old.stand self.old.taken piece.now result self.new }
        ensures remembers { IfErr result (λ f. Remembers self.old.stand self.old.taken piece.now self.new) }
    {
        match found {
            Err(fault) => {
                self.fault = Some(fault);
                remember(&mut self.taken, self.stand, piece);
                Err(fault)
            }
            Ok(None) => {
                self.taken.append(piece);
                Ok(LogFed {
                    used: piece.len(),
                    entry: None,
                    body: Data::new(&[]),
                })
            }
            Ok(Some(found)) => {
                let Found {
                    end,
                    version,
                    body,
                    entry,
                } = found;
                let used = end - self.taken.as_slice().len();
                let place = self.stand.start() + end as u64;
                self.stand = position_after(place, version, self.stand.epoch(), &entry);
                self.taken.clear();
                Ok(LogFed {
                    used,
                    entry: Some(entry),
                    body,
                })
            }
        }
    }

    // Takes an entry of another form than that of most packets, or a part of one, from the bytes at hand.
    #[inline(never)]
    pub(crate) fn feed_other<'a>(
        &mut self,
        bytes: &'a [u8],
        piece: &[u8],
        reset: &'a mut ResetEntry,
    ) -> Result<LogFed<'a>, LogFault>
        requires fresh { self.old.fault ≡ None }
        requires pending { IsPending self.old.stand self.old.taken }
        requires room { self.old.stand.start + length self.old.taken + length piece.now < 2 ^ 64 }
        requires joins { Joins self.old.stand self.old.taken piece.now bytes.now }
        ensures fed { Feeds self.old.stand self.old.taken piece.now result self.new }
        ensures remembers { IfErr result (λ f. Remembers self.old.stand self.old.taken piece.now self.new) }
    {
        let found = first_entry(self.stand, bytes, reset);
        self.keep(found, piece)
    }

    // Takes bytes up to the end of one entry, if no fault was answered. An entry that lies whole in the piece is read
    // where it lies.
    #[inline(always)]
    fn feed_fresh<'a>(
        &mut self,
        piece: &'a [u8],
        room: &'a mut ReadBuffers,
    ) -> Result<LogFed<'a>, LogFault>
        requires fresh { self.old.fault ≡ None }
        requires pending { IsPending self.old.stand self.old.taken }
        requires room { self.old.stand.start + length self.old.taken + length piece.now < 2 ^ 64 }
        ensures fed { Feeds self.old.stand self.old.taken piece.now result self.new }
        ensures remembers { IfErr result (λ f. Remembers self.old.stand self.old.taken piece.now self.new) }
    {
        let bytes = at_hand(self.stand, self.taken.as_slice(), piece, &mut room.bytes);
        match plain_found(self.stand, bytes) {
            Some(found) => self.keep(Ok(Some(found)), piece),
            None => self.feed_other(bytes, piece, &mut room.reset),
        }
    }

    /// Takes bytes up to the end of one entry, or all of the piece if no entry ends in it. The parts of a log are
    /// each quadlet of its header, and of an entry its kind with the zero after it, its length, in version 2 its epoch, its
    /// cycle and its body, and a byte after the end. A fault comes in the call in which the last byte of a refused part is taken;
    /// no log begins with the bytes up to there. After a fault each call answers that fault. The entry refers to the
    /// piece and to the room.
    #[inline(always)]
    pub fn feed<'a>(
        &mut self,
        piece: &'a [u8],
        room: &'a mut ReadBuffers,
    ) -> Result<LogFed<'a>, LogFault>
        requires { self.old.fault ≡ None → total self.old + length piece.now < 2 ^ 64 }
        ensures kept { IfSome self.old.fault (λ f. (result ≡ Err f) × (self.new ≡ self.old)) }
        ensures fresh { IfNone self.old.fault (Feeds self.old.stand self.old.taken piece.now result self.new) }

        ensures counts { Counts self.old piece.now result self.new }
        ensures body { IfOk result (λ fed. fed.body ≡ body_given fed.entry) }

        // An entry, none and a fault come exactly if the bytes since the last entry make them.
        ensures entry { IfNone self.old.fault ((k : ℕ) → (t : Timed) → EndsEntry self.old.stand self.old.taken piece.now k t
            → result ≡ Ok (record { used = k; entry = Some t; body = body t.what })) }
        ensures none { IfNone self.old.fault (EndsNothing self.old.stand self.old.taken piece.now
            → result ≡ Ok (record { used = length piece.now; entry = None; body = [] })) }
        ensures fault { IfNone self.old.fault ((k : ℕ) → (f : LogFault) → ShowsFault self.old.stand self.old.taken piece.now k f → result ≡ Err f) }

        // All that was fed since the reader began is the entries that were given and a part of one more; a fault comes
        // only if no log goes on, and of a log each entry that is given is the next.
        ensures history { (entries : List Timed) → (bytes : List ℕ) → HasRead entries bytes self.old → ReadsOn entries bytes piece.now result self.new }
        ensures version { (entries : List Timed) → (bytes : List ℕ) → HasRead entries bytes self.old → Names bytes piece.now result self.new }
        ensures log { (entries all : List Timed) → (v : AVersion) → (bytes more : List ℕ) → HasRead entries bytes self.old
            → LogOpens all v (bytes ++ (piece.now ++ more)) → GivesNext all entries result }
    {
        match self.fault {
            Some(fault) => Err(fault),
            None => self.feed_fresh(piece, room),
        }
    }
}
