//! Lines that say nothing, one by one.

ghost use Rattle.std.specs.Prelude.{◌≡◌, ◌≢◌, ◌≤◌, ℕ, List, length, take, true, IfOk, OnOk, OnErr, Ok, Err, Some};
ghost use Rattle.std.specs.declared.option.Option.{Option as Maybe};
ghost use Rattle.fw_outside.specs.Outside.{Rose};
ghost use Rattle.fw_script.specs.Passing.{FailsThere, HoldsNext, IsCommandNext, Passes};
ghost use Rattle.fw_script.specs.Reader.{IsOpen, HoldsLine};
ghost use Rattle.fw_script.specs.Reading.{Advances, IsHeld, TakesMore};

use super::ScriptReader;
use crate::ScriptFault;
use crate::line::{Meaning, Prefix, meaning_of};
use crate::stage::ReaderStage;
use fw_outside::Source;
use fw_script_command::Command;

/// What a line says that is held.
#[derive(Clone, Copy)]
pub enum Said {
    /// Nothing by itself: it is empty, a comment, or `end`. It was read.
    Nothing,
    /// A command. The line is not read.
    Command,
    /// Neither, and it is refused. The line is not read.
    Refused,
}

impl ScriptReader {
    /// Takes bytes until the next line is held whole, and answers its length, and how many bytes it takes with its line feed. It answers None
    /// if no line stands next: at the input's end, if the line or the script is too long, and after the end was given. No line is read.
    pub fn find_line<S: Source>(
        &mut self,
        source: &mut S,
    ) -> Result<Option<(usize, usize)>, ScriptFault>
        requires { self.old.stage ≢ ReaderStage.Failed }
        ensures takes { OnOk result (TakesMore self.old self.new (S.left source.old) (S.left source.new)) }
        ensures stage { OnOk result (self.new.stage ≡ self.old.stage) }
        ensures line { IfOk result (HoldsNext self.new) }
        ensures gives { OnErr result (Advances self.old self.new (S.left source.old) (S.left source.new) (Err ScriptFault.ReadFault)) }
        ensures held { OnErr result (IsHeld (Err ScriptFault.ReadFault) self.new) }
        ensures failed { OnErr result (FailsThere self.old self.new (S.left source.old) (S.left source.new)) }
        ensures unasked { self.old.whole ≡ true → source.new ≡ source.old }
        ensures later { S.faults source.old ≤ S.faults source.new }
        ensures cause { OnErr result (Rose (S.faults source.old) (S.faults source.new)) }
        ensures unfailed { OnOk result (S.faults source.new ≡ S.faults source.old) }
    {
        if self.is_done() {
            return Ok(None);
        }
        loop {
            match self.prefix() {
                Prefix::Line { length, size } => return Ok(Some((length, size))),
                Prefix::LongLine | Prefix::Limit | Prefix::Nothing => return Ok(None),
                Prefix::Cut => self.take(source)?,
            }
        }
    }

    /// The first bytes that are held.
    pub fn held_text(&self, count: usize) -> &[u8]
        requires { count ≤ length self.now.rest }
        ensures { result.now ≡ take count self.now.rest }
    {
        self.prefix_text(count)
    }

    /// Reads the next line, which has this length and takes so many bytes, if it says nothing by itself. A command is put into `out`.
    pub fn read_line(&mut self, length: usize, size: usize, out: &mut Command) -> Said
        requires open { IsOpen self.old.stage }
        requires line { HoldsLine self.old length size }
        ensures { Passes self.old length size result out.new self.new }
    {
        // What the invariant says of the bytes is known from here on.
        let _ = &self.bytes;
        match meaning_of(self.prefix_text(length), self.takes_commands(), out) {
            Meaning::Skipped => {
                self.advance(length, size);
                Said::Nothing
            }
            Meaning::End => {
                self.advance(length, size);
                self.enter(ReaderStage::AfterEnd);
                Said::Nothing
            }
            Meaning::Command => Said::Command,
            Meaning::Refused => Said::Refused,
        }
    }

    /// Reads the next line, which has this length and takes so many bytes, and is a command's: `read_line` has put the command, and it is not
    /// read again.
    pub fn pass_command(&mut self, length: usize, size: usize)
        requires line { HoldsLine self.old length size }
        requires next { (c : Command) × IsCommandNext self.old self.old (take length self.old.rest) c }
        ensures gives { (c : Command) (left : Maybe (List ℕ)) → IsCommandNext self.old self.old (take length self.old.rest) c → Advances self.old self.new left left (Ok (Some c)) }
        ensures held { (c : Command) → IsHeld (Ok (Some c)) self.new }
    {
        // What the invariant says of the bytes is known from here on, as in `read_line`.
        let _ = &self.bytes;
        self.advance(length, size);
    }
}
