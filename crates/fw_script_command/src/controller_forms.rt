//! Lines on controllers and their connections.

ghost use Rattle.std.specs.Prelude.{IfSome, IfNone};
ghost use Rattle.fw_script_command.specs.Form.{HasArguments};
ghost use Rattle.fw_script_command.specs.declared.command.Command.{Command};

use crate::Command;
use crate::cut::Pieces;
use crate::keyword::Keyword;

/// `connect NAME PLUG PLUG CHANNEL OVERHEAD`
pub(crate) fn connect(words: &mut Pieces, out: &mut Command) -> Option<()>
    ensures found { IfSome result (λ u. HasArguments Keyword.Connect words.old out.new) }
    ensures none { IfNone result ((c : Command) → HasArguments Keyword.Connect words.old c → ⊥) }
{
    let name = words.name()?;
    let output = words.place(30)?;
    let input = words.place(30)?;
    let channel = words.channel()?;
    let overhead = words.small(0, 15)?;
    words.end()?;
    *out = Command::Connect(name, output, input, channel, overhead);
    Some(())
}

/// `broadcast NAME PLUG OVERHEAD`
pub(crate) fn broadcast(words: &mut Pieces, out: &mut Command) -> Option<()>
    ensures found { IfSome result (λ u. HasArguments Keyword.Broadcast words.old out.new) }
    ensures none { IfNone result ((c : Command) → HasArguments Keyword.Broadcast words.old c → ⊥) }
{
    let name = words.name()?;
    let output = words.place(30)?;
    let overhead = words.small(0, 15)?;
    words.end()?;
    *out = Command::Broadcast(name, output, overhead);
    Some(())
}

/// `listen NAME PLUG`
pub(crate) fn listen(words: &mut Pieces, out: &mut Command) -> Option<()>
    ensures found { IfSome result (λ u. HasArguments Keyword.Listen words.old out.new) }
    ensures none { IfNone result ((c : Command) → HasArguments Keyword.Listen words.old c → ⊥) }
{
    let name = words.name()?;
    let input = words.place(30)?;
    words.end()?;
    *out = Command::Listen(name, input);
    Some(())
}

/// `break NAME SLOT`
pub(crate) fn break_(words: &mut Pieces, out: &mut Command) -> Option<()>
    ensures found { IfSome result (λ u. HasArguments Keyword.Break words.old out.new) }
    ensures none { IfNone result ((c : Command) → HasArguments Keyword.Break words.old c → ⊥) }
{
    let name = words.name()?;
    let slot = words.small(0, 31)?;
    words.end()?;
    *out = Command::Break(name, slot);
    Some(())
}

/// `step NAME COUNT`
pub(crate) fn step(words: &mut Pieces, out: &mut Command) -> Option<()>
    ensures found { IfSome result (λ u. HasArguments Keyword.Step words.old out.new) }
    ensures none { IfNone result ((c : Command) → HasArguments Keyword.Step words.old c → ⊥) }
{
    let name = words.name()?;
    let count = words.number(1, 10_000)?;
    words.end()?;
    *out = Command::Step(name, count);
    Some(())
}

/// `settle ROUNDS`
pub(crate) fn settle(words: &mut Pieces, out: &mut Command) -> Option<()>
    ensures found { IfSome result (λ u. HasArguments Keyword.Settle words.old out.new) }
    ensures none { IfNone result ((c : Command) → HasArguments Keyword.Settle words.old c → ⊥) }
{
    let rounds = words.number(1, 200_000)?;
    words.end()?;
    *out = Command::Settle(rounds);
    Some(())
}

/// `die NAME` or `die NAME late`
pub(crate) fn die(words: &mut Pieces, out: &mut Command) -> Option<()>
    ensures found { IfSome result (λ u. HasArguments Keyword.Die words.old out.new) }
    ensures none { IfNone result ((c : Command) → HasArguments Keyword.Die words.old c → ⊥) }
{
    let name = words.name()?;
    match words.end() {
        Some(()) => *out = Command::Die(name, false),
        None => {
            words.late()?;
            words.end()?;
            *out = Command::Die(name, true);
        }
    }
    Some(())
}

/// `lose NAME`
pub(crate) fn lose(words: &mut Pieces, out: &mut Command) -> Option<()>
    ensures found { IfSome result (λ u. HasArguments Keyword.Lose words.old out.new) }
    ensures none { IfNone result ((c : Command) → HasArguments Keyword.Lose words.old c → ⊥) }
{
    let name = words.name()?;
    words.end()?;
    *out = Command::Lose(name);
    Some(())
}

/// `start NAME`
pub(crate) fn start(words: &mut Pieces, out: &mut Command) -> Option<()>
    ensures found { IfSome result (λ u. HasArguments Keyword.Start words.old out.new) }
    ensures none { IfNone result ((c : Command) → HasArguments Keyword.Start words.old c → ⊥) }
{
    let name = words.name()?;
    words.end()?;
    *out = Command::Start(name);
    Some(())
}
