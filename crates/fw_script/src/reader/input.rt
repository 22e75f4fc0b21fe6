//! The bytes of a script, taken from their source.

ghost use Rattle.std.specs.Prelude.{◌≡◌, ◌≤◌, ◌+◌, ◌++◌, ◌==◌, length, take, drop, OnOk, OnErr, Err, vec_len, vec_capacity};
ghost use Rattle.fw_outside.specs.Outside.{Rose};
ghost use Rattle.fw_script.specs.Reader.{IsOpen, IsCut, Fills};
ghost use Rattle.fw_script.specs.Reading.{with_taken};

use super::ScriptReader;
use super::standing::{TEXT_LIMIT, TextSpan};
use crate::ScriptFault;
use crate::line::LINE_LIMIT;
use crate::stage::ReaderStage;
use fw_outside::Source;
use fw_words::Bytes;

/// How many bytes are asked for at once.
const PIECE: usize = 4096;

/// How many bytes are held at most: the text of the line last read, the beginning of the next, and those that were asked for after it.
pub(super) const HELD_LIMIT: usize = TEXT_LIMIT + LINE_LIMIT + PIECE;

/// Appends bytes for which there is room.
fn put(bytes: &mut Vec<u8>, more: &[u8])
    requires room { vec_len bytes.old + length more.now ≤ vec_capacity bytes.old }
    ensures items { bytes.new.items ≡ bytes.old.items ++ more.now }
    ensures len { vec_len bytes.new ≡ vec_len bytes.old + length more.now }
    ensures kept { vec_capacity bytes.old ≤ vec_capacity bytes.new }
{
    if bytes.extend_from_slice(more).is_err() {
        unreachable!();
    }
}

/// Puts the text of the line last read, the beginning of the next and a piece in place of what was held.
fn refill(bytes: &mut Vec<u8>, text: &[u8], prefix: &[u8], piece: &[u8])
    requires room { length text.now + length prefix.now + length piece.now ≤ vec_capacity bytes.old }
    ensures text { take (length text.now) bytes.new.items ≡ text.now }
    ensures rest { drop (length text.now) bytes.new.items ≡ prefix.now ++ piece.now }
    ensures len { vec_len bytes.new ≡ length text.now + length prefix.now + length piece.now }
    ensures kept { vec_capacity bytes.old ≤ vec_capacity bytes.new }
{
    bytes.clear();
    put(bytes, text);
    put(bytes, prefix);
    put(bytes, piece);
}

impl ScriptReader {
    // Puts bytes after the text of the line last read and the beginning of the next. No bytes are the source's end.
    fn hold(&mut self, piece: &[u8])
        requires cut { IsCut self.old }
        requires few { length piece.now ≤ 4096 }
        ensures { self.new ≡ with_taken self.old piece.now (length piece.now == 0) }
    {
        let mut text = Bytes::<TEXT_LIMIT>::new();
        text.append(self.text());
        let mut prefix = Bytes::<LINE_LIMIT>::new();
        prefix.append(&self.bytes[self.at..]);
        refill(&mut self.bytes, text.as_slice(), prefix.as_slice(), piece);
        self.at = text.as_slice().len();
        self.text = TextSpan {
            at: 0,
            length: self.at,
        };
        self.whole = piece.is_empty();
    }

    // Takes bytes from the source, after the beginning of a line that is held.
    // Not inlined, so that its room is made only if bytes are asked for.
    #[inline(never)]
    pub(super) fn take<S: Source>(&mut self, source: &mut S) -> Result<(), ScriptFault>
        requires open { IsOpen self.old.stage }
        requires cut { IsCut self.old }
        ensures fills { Fills self.old (S.left source.old) (S.left source.new) result self.new }
        ensures later { S.faults source.old ≤ S.faults source.new }
        ensures cause { OnErr result (Rose (S.faults source.old) (S.faults source.new)) }
        ensures unfailed { OnOk result (S.faults source.new ≡ S.faults source.old) }
    {
        let mut piece = [0; PIECE];
        let Ok(count) = source.read(&mut piece) else {
            self.enter(ReaderStage::Failed);
            return Err(ScriptFault::ReadFault);
        };
        self.hold(&piece[..count]);
        Ok(())
    }
}
