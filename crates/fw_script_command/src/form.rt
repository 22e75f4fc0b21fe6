//! The command of a line.

ghost use Rattle.std.specs.Prelude.{IfSome, IfNone};
ghost use Rattle.fw_script_command.specs.Form.{HasArguments, HasForm};
ghost use Rattle.fw_script_command.specs.declared.command.Command.{Command};

use crate::Command;
use crate::candidate_forms::{candidate, contend};
use crate::controller_forms::{break_, broadcast, connect, die, listen, lose, settle, start, step};
use crate::cut::{Pieces, Separator};
use crate::device_forms::{cable, device, dub, eject, insert, reset, show, withhold};
use crate::keyword::{Keyword, keyword_of};
use crate::transaction_forms::{command, cycles, end, read, swap, wait};

/// The command of a keyword with the words after it.
// Inlined at its one call, so that the words are kept in registers.
#[inline(always)]
fn arguments(keyword: Keyword, words: &mut Pieces, out: &mut Command) -> Option<()>
    ensures found { IfSome result (λ u. HasArguments keyword words.old out.new) }
    ensures none { IfNone result ((c : Command) → HasArguments keyword words.old c → ⊥) }
{
    match keyword {
        Keyword::Device => device(words, out),
        Keyword::Cable => cable(words, out),
        Keyword::Reset => reset(words, out),
        Keyword::Connect => connect(words, out),
        Keyword::Broadcast => broadcast(words, out),
        Keyword::Listen => listen(words, out),
        Keyword::Break => break_(words, out),
        Keyword::Step => step(words, out),
        Keyword::Settle => settle(words, out),
        Keyword::Wait => wait(words, out),
        Keyword::Cycles => cycles(words, out),
        Keyword::Die => die(words, out),
        Keyword::Lose => lose(words, out),
        Keyword::Start => start(words, out),
        Keyword::Command => command(words, out),
        Keyword::Read => read(words, out),
        Keyword::Swap => swap(words, out),
        Keyword::Insert => insert(words, out),
        Keyword::Eject => eject(words, out),
        Keyword::Show => show(words, out),
        Keyword::Withhold => withhold(words, out),
        Keyword::Candidate => candidate(words, out),
        Keyword::Contend => contend(words, out),
        Keyword::Dub => dub(words, out),
        Keyword::End => end(words, out),
    }
}

/// The command that the line is, or none if it has no form.
pub fn command_of(line: &[u8], out: &mut Command) -> Option<()>
    ensures found { IfSome result (λ u. HasForm out.new line.now) }
    ensures none { IfNone result ((c : Command) → HasForm c line.now → ⊥) }
{
    let mut words = Pieces::new(line, Separator::Space);
    let keyword = keyword_of(words.next()?)?;
    arguments(keyword, &mut words, out)
}
