//! Lines on candidates for the bus manager.

ghost use Rattle.std.specs.Prelude.{IfSome, IfNone};
ghost use Rattle.fw_script_command.specs.Form.{HasArguments};
ghost use Rattle.fw_script_command.specs.declared.command.Command.{Command};

use crate::Command;
use crate::cut::Pieces;
use crate::keyword::Keyword;

/// `candidate NAME`
pub(crate) fn candidate(words: &mut Pieces, out: &mut Command) -> Option<()>
    ensures found { IfSome result (λ u. HasArguments Keyword.Candidate words.old out.new) }
    ensures none { IfNone result ((c : Command) → HasArguments Keyword.Candidate words.old c → ⊥) }
{
    let name = words.name()?;
    words.end()?;
    *out = Command::Candidate(name);
    Some(())
}

/// `contend NAME COUNT`
pub(crate) fn contend(words: &mut Pieces, out: &mut Command) -> Option<()>
    ensures found { IfSome result (λ u. HasArguments Keyword.Contend words.old out.new) }
    ensures none { IfNone result ((c : Command) → HasArguments Keyword.Contend words.old c → ⊥) }
{
    let name = words.name()?;
    let count = words.number(1, 10_000)?;
    words.end()?;
    *out = Command::Contend(name, count);
    Some(())
}
