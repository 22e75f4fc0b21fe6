//! The reader of scripts.

ghost use Rattle.std.specs.Prelude.{◌≡◌, ◌≢◌, ◌≤◌, length, true, false, Ok, Err, None, IfOk};
ghost use Rattle.fw_outside.specs.Outside.{Rose};
ghost use Rattle.fw_script.specs.Reader.{IsOpen, IsNear, HoldsLine, ReadsLine, Steps, answer_of, given_of};
ghost use Rattle.fw_script.specs.Reading.{unread, Advances, IsStageAfter, IsAtEndOfInput, HoldsAnswer, IsHeld};

use crate::ScriptFault;
use crate::line::{Meaning, Prefix, meaning_of};
use crate::stage::ReaderStage;
use fw_outside::Source;
use fw_script_command::Command;
use std::alloc::{AllocError, Global};
use std::marker::Model;

mod input;
mod passing;
mod standing;

use input::HELD_LIMIT;
pub use passing::Said;
use standing::{TEXT_LIMIT, TextSpan};

/// Reads the commands of a script, line by line. It holds what it took from the source and did not yet read: the beginning of a
/// line, of at most 256 bytes, and up to 4,096 bytes that were asked for since. It asks only if no whole line is held.
/// The line last read or refused stays where it stands among the bytes, until others are asked for: then it comes before them.
#[derive(Drop)]
pub struct ScriptReader {
    bytes: Vec<u8>,
    at: usize,
    before: usize,
    whole: bool,
    line: u32,
    stage: ReaderStage,
    /// The text of the line last read or refused, as far as its first 257 bytes.
    text: TextSpan,
    /// The number of the line `end`, 0 before it was read.
    end: u32,
}

impl Model for ScriptReader {
    ghost use Rattle.std.specs.Prelude.{◌≤◌, ◌+◌, take, drop, vec_len, vec_capacity};
    ghost use Rattle.fw_script.specs.Reader.{IsOpen, IsNear};
    ghost use Rattle.fw_script.specs.Reading.{Reading};

    ghost Value = { Reading };

    ghost view = { λ r. record { rest = drop r.at r.bytes.items; whole = r.whole; before = r.before; line = r.line; stage = r.stage; text = take r.text.length (drop r.text.at r.bytes.items); end = r.end } };

    ghost invariant = { λ r. (r.at ≤ vec_len r.bytes) × (4609 ≤ vec_capacity r.bytes) × IsNear (drop r.at r.bytes.items)
        × (r.before ≤ 1048576) × (r.line ≤ r.before + 1) × (IsOpen r.stage → r.line ≤ r.before)
        × (r.text.at + r.text.length ≤ vec_len r.bytes) × (r.text.length ≤ 257) };
}

impl ScriptReader {
    /// A reader that has read nothing. It makes the room for all that it will ever hold, 4,609 bytes.
    pub fn new(alloc: Global) -> Result<ScriptReader, AllocError>
        ensures { IfOk result (λ r. r ≡ unread) }
    {
        Ok(ScriptReader {
            bytes: Vec::with_capacity(alloc, HELD_LIMIT)?,
            at: 0,
            before: 0,
            whole: false,
            line: 0,
            stage: ReaderStage::Commands,
            text: TextSpan { at: 0, length: 0 },
            end: 0,
        })
    }

    /// The number of the line last read or refused, from 1, and 0 before the first. If the end is missing it is
    /// that of the line after the last.
    pub fn line(&self) -> u32
        ensures { result ≡ self.now.line }
    {
        self.line
    }

    /// The text of the line last read or refused, without its line feed; of one that is too long its first 257 bytes, and none if the end is
    /// missing.
    pub fn text(&self) -> &[u8]
        ensures { result.now ≡ self.now.text }
    {
        &self.bytes[self.text.at..self.text.at + self.text.length]
    }

    /// The number of the line `end`, and 0 before it was read.
    pub fn end_line(&self) -> u32
        ensures { result ≡ self.now.end }
    {
        self.end
    }

    // Reads a line of so many bytes. Answers whether it is a command, which is put into `out`.
    #[inline(always)]
    fn read_text(
        &mut self,
        count: usize,
        size: usize,
        out: &mut Command,
    ) -> Result<bool, ScriptFault>
        requires open { IsOpen self.old.stage }
        requires near { IsNear self.old.rest }
        requires line { HoldsLine self.old count size }
        ensures reads { ReadsLine self.old (answer_of result out.new) self.new }
        ensures held { IsHeld (answer_of result out.new) self.new }
        ensures told { result ≢ Err ScriptFault.ReadFault }
    {
        let meaning = meaning_of(self.prefix_text(count), self.takes_commands(), out);
        self.advance(count, size);
        match meaning {
            Meaning::Skipped => Ok(false),
            Meaning::Command => Ok(true),
            Meaning::End => {
                self.enter(ReaderStage::AfterEnd);
                Ok(false)
            }
            Meaning::Refused => {
                self.enter(ReaderStage::Failed);
                Err(ScriptFault::BadLine)
            }
        }
    }

    // Meets the input's end, and puts it into `out`.
    fn read_end(&mut self, out: &mut Command) -> Result<bool, ScriptFault>
        requires open { IsOpen self.old.stage }
        requires end { IsAtEndOfInput self.old }
        ensures reads { ReadsLine self.old (answer_of result out.new) self.new }
        ensures held { IsHeld (answer_of result out.new) self.new }
        ensures told { result ≢ Err ScriptFault.ReadFault }
        ensures some { result ≢ Ok false }
    {
        if self.takes_commands() {
            self.refuse(0);
            Err(ScriptFault::NoEnd)
        } else {
            self.enter(ReaderStage::Done);
            *out = Command::End;
            Ok(true)
        }
    }

    // Reads the next line, or takes bytes if its end is not held. Answers whether a command was put into `out`: if none was,
    // the reading goes on.
    fn read_more<S: Source>(
        &mut self,
        source: &mut S,
        out: &mut Command,
    ) -> Result<bool, ScriptFault>
        requires open { IsOpen self.old.stage }
        ensures steps { Steps self.old (S.left source.old) (S.left source.new) (answer_of result out.new) self.new }
        ensures held { IsHeld (answer_of result out.new) self.new }
        ensures unasked { self.old.whole ≡ true → (source.new ≡ source.old) × (self.new.whole ≡ true) }
        ensures asks { HoldsAnswer self.old → source.new ≡ source.old }
        ensures holds { HoldsAnswer self.old → result ≡ Ok false → HoldsAnswer self.new }
        ensures later { S.faults source.old ≤ S.faults source.new }
        ensures cause { result ≡ Err ScriptFault.ReadFault → Rose (S.faults source.old) (S.faults source.new) }
        ensures unfailed { result ≢ Err ScriptFault.ReadFault → S.faults source.new ≡ S.faults source.old }
    {
        match self.prefix() {
            Prefix::Line { length, size } => self.read_text(length, size, out),
            Prefix::LongLine => {
                self.refuse(TEXT_LIMIT);
                Err(ScriptFault::LineTooLong)
            }
            Prefix::Limit => {
                self.enter(ReaderStage::Failed);
                Err(ScriptFault::TooLong)
            }
            Prefix::Nothing => self.read_end(out),
            Prefix::Cut => match self.take(source) {
                Ok(()) => Ok(false),
                Err(fault) => Err(fault),
            },
        }
    }

    // Reads lines up to the next command, which is put into `out`.
    fn read_on<S: Source>(&mut self, source: &mut S, out: &mut Command) -> Result<(), ScriptFault>
        requires open { IsOpen self.old.stage }
        ensures advances { Advances self.old self.new (S.left source.old) (S.left source.new) (given_of result out.new) }
        ensures stage { IsStageAfter self.old.stage (given_of result out.new) self.new.stage }
        ensures held { IsHeld (given_of result out.new) self.new }
        ensures unasked { self.old.whole ≡ true → source.new ≡ source.old }
        ensures asks { HoldsAnswer self.old → source.new ≡ source.old }
        ensures later { S.faults source.old ≤ S.faults source.new }
        ensures cause { result ≡ Err ScriptFault.ReadFault → Rose (S.faults source.old) (S.faults source.new) }
        ensures unfailed { result ≢ Err ScriptFault.ReadFault → S.faults source.new ≡ S.faults source.old }
    {
        loop {
            match self.read_more(source, out) {
                Ok(false) => {}
                Ok(true) => return Ok(()),
                Err(fault) => return Err(fault),
            }
        }
    }

    /// Puts the next command into `out`, and answers whether there was one. `End` is given when the input's end is reached, and after it none.
    ///
    /// It asks that no fault was answered before. The source is asked, for 4,096 bytes at once, only if what is held gives
    /// no answer, and not again once its end was met. After a command, or a line that is refused, at most 4,096 bytes are held.
    /// With `ReadFault` no whole line is held: the commands of all lines whose line feed was taken have been given.
    #[inline(always)]
    pub fn read_command<S: Source>(
        &mut self,
        source: &mut S,
        out: &mut Command,
    ) -> Result<bool, ScriptFault>
        requires { self.old.stage ≢ ReaderStage.Failed }
        ensures gives { Advances self.old self.new (S.left source.old) (S.left source.new) (answer_of result out.new) }
        ensures stage { IsStageAfter self.old.stage (answer_of result out.new) self.new.stage }
        ensures held { IsHeld (answer_of result out.new) self.new }
        ensures unasked { self.old.whole ≡ true → source.new ≡ source.old }
        ensures asks { HoldsAnswer self.old → source.new ≡ source.old }
        ensures later { S.faults source.old ≤ S.faults source.new }
        ensures cause { result ≡ Err ScriptFault.ReadFault → Rose (S.faults source.old) (S.faults source.new) }
        ensures unfailed { result ≢ Err ScriptFault.ReadFault → S.faults source.new ≡ S.faults source.old }
    {
        if self.is_done() {
            return Ok(false);
        }
        match self.read_on(source, out) {
            Ok(()) => Ok(true),
            Err(fault) => Err(fault),
        }
    }

    /// The next command, as `read_command` puts it.
    pub fn next<S: Source>(&mut self, source: &mut S) -> Result<Option<Command>, ScriptFault>
        requires { self.old.stage ≢ ReaderStage.Failed }
        ensures gives { Advances self.old self.new (S.left source.old) (S.left source.new) result }
        ensures stage { IsStageAfter self.old.stage result self.new.stage }
        ensures held { IsHeld result self.new }
        ensures unasked { self.old.whole ≡ true → source.new ≡ source.old }
        ensures asks { HoldsAnswer self.old → source.new ≡ source.old }
        ensures later { S.faults source.old ≤ S.faults source.new }
        ensures cause { result ≡ Err ScriptFault.ReadFault → Rose (S.faults source.old) (S.faults source.new) }
        ensures unfailed { result ≢ Err ScriptFault.ReadFault → S.faults source.new ≡ S.faults source.old }
    {
        let mut command = Command::End;
        match self.read_command(source, &mut command) {
            Ok(true) => Ok(Some(command)),
            Ok(false) => Ok(None),
            Err(fault) => Err(fault),
        }
    }
}
