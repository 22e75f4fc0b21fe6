//! Lines on time and transactions, and the last line.

ghost use Rattle.std.specs.Prelude.{IfSome, IfNone};
ghost use Rattle.fw_script_command.specs.Form.{HasArguments};
ghost use Rattle.fw_script_command.specs.declared.command.Command.{Command};

use crate::Command;
use crate::cut::Pieces;
use crate::keyword::Keyword;
use fw_words::Bytes;

/// `wait CYCLES`
pub(crate) fn wait(words: &mut Pieces, out: &mut Command) -> Option<()>
    ensures found { IfSome result (λ u. HasArguments Keyword.Wait words.old out.new) }
    ensures none { IfNone result ((c : Command) → HasArguments Keyword.Wait words.old c → ⊥) }
{
    let cycles = words.number(0, 1_000_000_000)?;
    words.end()?;
    *out = Command::Wait(cycles);
    Some(())
}

/// `cycles COUNT`
pub(crate) fn cycles(words: &mut Pieces, out: &mut Command) -> Option<()>
    ensures found { IfSome result (λ u. HasArguments Keyword.Cycles words.old out.new) }
    ensures none { IfNone result ((c : Command) → HasArguments Keyword.Cycles words.old c → ⊥) }
{
    let count = words.number(1, 8_000)?;
    words.end()?;
    *out = Command::Cycles(count);
    Some(())
}

/// `command NAME NAME HEX`
pub(crate) fn command(words: &mut Pieces, out: &mut Command) -> Option<()>
    ensures found { IfSome result (λ u. HasArguments Keyword.Command words.old out.new) }
    ensures none { IfNone result ((c : Command) → HasArguments Keyword.Command words.old c → ⊥) }
{
    let sender = words.name()?;
    let target = words.name()?;
    // The frame is read where it is to stand.
    *out = Command::Command(sender, target, Bytes::new());
    let Command::Command(_, _, frame) = out else {
        unreachable!();
    };
    words.last_frame(frame)
}

/// `read NAME NAME OFF`
pub(crate) fn read(words: &mut Pieces, out: &mut Command) -> Option<()>
    ensures found { IfSome result (λ u. HasArguments Keyword.Read words.old out.new) }
    ensures none { IfNone result ((c : Command) → HasArguments Keyword.Read words.old c → ⊥) }
{
    let sender = words.name()?;
    let target = words.name()?;
    let offset = words.last_offset()?;
    *out = Command::Read(sender, target, offset);
    Some(())
}

/// `swap NAME NAME OFF WORD WORD`
pub(crate) fn swap(words: &mut Pieces, out: &mut Command) -> Option<()>
    ensures found { IfSome result (λ u. HasArguments Keyword.Swap words.old out.new) }
    ensures none { IfNone result ((c : Command) → HasArguments Keyword.Swap words.old c → ⊥) }
{
    let sender = words.name()?;
    let target = words.name()?;
    let offset = words.offset()?;
    let argument = words.word()?;
    let value = words.word()?;
    words.end()?;
    *out = Command::Swap(sender, target, offset, argument, value);
    Some(())
}

/// `end`
pub(crate) fn end(words: &mut Pieces, out: &mut Command) -> Option<()>
    ensures found { IfSome result (λ u. HasArguments Keyword.End words.old out.new) }
    ensures none { IfNone result ((c : Command) → HasArguments Keyword.End words.old c → ⊥) }
{
    words.end()?;
    *out = Command::End;
    Some(())
}
