//! Where a reader stands: what it holds, and how it goes on.

ghost use Rattle.std.specs.Prelude.{◌≡◌, ◌≢◌, ◌≤◌, ◌<◌, ◌+◌, length, take, drop, true, false};
ghost use Rattle.fw_script.specs.Reader.{IsOpen, IsNear, StandsNext};
ghost use Rattle.fw_script.specs.Reading.{at_stage, following, end_at, refused};

use super::ScriptReader;
use crate::line::{LINE_LIMIT, Prefix, SCRIPT_LIMIT, prefix_of};
use crate::stage::ReaderStage;

/// How many bytes are kept of a line at most: those of one that is too long as far as that shows it.
pub(super) const TEXT_LIMIT: usize = LINE_LIMIT + 1;

/// Where a text stands among the bytes that are held.
#[derive(Clone, Copy)]
pub(super) struct TextSpan {
    pub(super) at: usize,
    pub(super) length: usize,
}

impl ScriptReader {
    // Whether commands may come, or only skipped lines.
    pub(super) fn takes_commands(&self) -> bool
        requires { IsOpen self.now.stage }
        ensures yes { result ≡ true → self.now.stage ≡ ReaderStage.Commands }
        ensures no { result ≡ false → self.now.stage ≡ ReaderStage.AfterEnd }
    {
        match self.stage {
            ReaderStage::Commands => true,
            ReaderStage::AfterEnd => false,
            ReaderStage::Done | ReaderStage::Failed => unreachable!(),
        }
    }

    // Whether the end was given.
    pub(super) fn is_done(&self) -> bool
        requires { self.now.stage ≢ ReaderStage.Failed }
        ensures yes { result ≡ true → self.now.stage ≡ ReaderStage.Done }
        ensures no { result ≡ false → IsOpen self.now.stage }
    {
        match self.stage {
            ReaderStage::Commands | ReaderStage::AfterEnd => false,
            ReaderStage::Done => true,
            ReaderStage::Failed => unreachable!(),
        }
    }

    // What stands next.
    // Inlined, so that the answer is not kept in memory: it is asked for each line.
    #[inline(always)]
    pub(super) fn prefix(&self) -> Prefix
        ensures stands { StandsNext self.now result }
        ensures near { IsNear self.now.rest }
    {
        prefix_of(
            &self.bytes[self.at..],
            SCRIPT_LIMIT - self.before,
            self.whole,
        )
    }

    // The first bytes from here on.
    pub(super) fn prefix_text(&self, count: usize) -> &[u8]
        requires { count ≤ length self.now.rest }
        ensures { result.now ≡ take count self.now.rest }
    {
        &self.bytes[self.at..self.at + count]
    }

    // Goes after a line of so many bytes, with its line feed.
    pub(super) fn advance(&mut self, count: usize, size: usize)
        requires text { count ≤ length self.old.rest }
        requires short { count ≤ 256 }
        requires open { IsOpen self.old.stage }
        requires some { 0 < size }
        requires there { size ≤ length self.old.rest }
        requires near { IsNear (drop size self.old.rest) }
        requires within { self.old.before + size ≤ 1048576 }
        ensures { self.new ≡ following self.old (take count self.old.rest) size }
    {
        self.text = TextSpan {
            at: self.at,
            length: count,
        };
        self.at += size;
        self.before += size;
        self.line += 1;
    }

    // The number of the line `end`, where another stage begins.
    fn end_at(&self, stage: ReaderStage) -> u32
        ensures { result ≡ end_at self.now stage }
    {
        match stage {
            ReaderStage::AfterEnd => self.line,
            ReaderStage::Commands | ReaderStage::Done | ReaderStage::Failed => self.end,
        }
    }

    // Reads on from another stage.
    pub(super) fn enter(&mut self, stage: ReaderStage)
        requires { IsOpen self.old.stage }
        ensures { self.new ≡ at_stage self.old stage }
    {
        self.end = self.end_at(stage);
        self.stage = stage;
    }

    // Refuses the line after the last, which begins with so many bytes.
    pub(super) fn refuse(&mut self, count: usize)
        requires open { IsOpen self.old.stage }
        requires text { count ≤ length self.old.rest }
        requires short { count ≤ 257 }
        ensures { self.new ≡ refused self.old (take count self.old.rest) }
    {
        self.text = TextSpan {
            at: self.at,
            length: count,
        };
        self.line += 1;
        self.stage = ReaderStage::Failed;
    }
}
