//! Lines on devices, cables, tapes, registers and the bus.

ghost use Rattle.std.specs.Prelude.{IfSome, IfNone};
ghost use Rattle.fw_script_command.specs.Form.{HasArguments};
ghost use Rattle.fw_script_command.specs.declared.command.Command.{Command};

use crate::Command;
use crate::cut::Pieces;
use crate::keyword::Keyword;

/// `device NAME KIND PORTS SPEED`
pub(crate) fn device(words: &mut Pieces, out: &mut Command) -> Option<()>
    ensures found { IfSome result (λ u. HasArguments Keyword.Device words.old out.new) }
    ensures none { IfNone result ((c : Command) → HasArguments Keyword.Device words.old c → ⊥) }
{
    let name = words.name()?;
    let kind = words.kind()?;
    let ports = words.small(1, 27)?;
    let speed = words.speed()?;
    words.end()?;
    *out = Command::Device(name, kind, ports, speed);
    Some(())
}

/// `cable END END`
pub(crate) fn cable(words: &mut Pieces, out: &mut Command) -> Option<()>
    ensures found { IfSome result (λ u. HasArguments Keyword.Cable words.old out.new) }
    ensures none { IfNone result ((c : Command) → HasArguments Keyword.Cable words.old c → ⊥) }
{
    let one = words.place(26)?;
    let other = words.place(26)?;
    words.end()?;
    *out = Command::Cable(one, other);
    Some(())
}

/// `reset NAME`
pub(crate) fn reset(words: &mut Pieces, out: &mut Command) -> Option<()>
    ensures found { IfSome result (λ u. HasArguments Keyword.Reset words.old out.new) }
    ensures none { IfNone result ((c : Command) → HasArguments Keyword.Reset words.old c → ⊥) }
{
    let name = words.name()?;
    words.end()?;
    *out = Command::Reset(name);
    Some(())
}

/// `insert NAME TAPE SYSTEM`
pub(crate) fn insert(words: &mut Pieces, out: &mut Command) -> Option<()>
    ensures found { IfSome result (λ u. HasArguments Keyword.Insert words.old out.new) }
    ensures none { IfNone result ((c : Command) → HasArguments Keyword.Insert words.old c → ⊥) }
{
    let name = words.name()?;
    let tape = words.number(0, 65_535)?;
    let system = words.system()?;
    words.end()?;
    *out = Command::Insert(name, tape as u16, system);
    Some(())
}

/// `eject NAME`
pub(crate) fn eject(words: &mut Pieces, out: &mut Command) -> Option<()>
    ensures found { IfSome result (λ u. HasArguments Keyword.Eject words.old out.new) }
    ensures none { IfNone result ((c : Command) → HasArguments Keyword.Eject words.old c → ⊥) }
{
    let name = words.name()?;
    words.end()?;
    *out = Command::Eject(name);
    Some(())
}

/// `dub NAME`
pub(crate) fn dub(words: &mut Pieces, out: &mut Command) -> Option<()>
    ensures found { IfSome result (λ u. HasArguments Keyword.Dub words.old out.new) }
    ensures none { IfNone result ((c : Command) → HasArguments Keyword.Dub words.old c → ⊥) }
{
    let name = words.name()?;
    words.end()?;
    *out = Command::Dub(name);
    Some(())
}

/// `show NAME OFF`
pub(crate) fn show(words: &mut Pieces, out: &mut Command) -> Option<()>
    ensures found { IfSome result (λ u. HasArguments Keyword.Show words.old out.new) }
    ensures none { IfNone result ((c : Command) → HasArguments Keyword.Show words.old c → ⊥) }
{
    let name = words.shown()?;
    let offset = words.last_offset()?;
    *out = Command::Show(name, offset);
    Some(())
}

/// `withhold`
pub(crate) fn withhold(words: &mut Pieces, out: &mut Command) -> Option<()>
    ensures found { IfSome result (λ u. HasArguments Keyword.Withhold words.old out.new) }
    ensures none { IfNone result ((c : Command) → HasArguments Keyword.Withhold words.old c → ⊥) }
{
    words.end()?;
    *out = Command::Withhold;
    Some(())
}
