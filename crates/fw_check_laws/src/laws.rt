//! Laws of what is told of refused lines, each as the contract of an empty function.

ghost use Rattle.std.specs.Prelude.{List, String};
ghost use Rattle.std.specs.declared.alloc.Global.{Global};
ghost use Rattle.fw_check_laws.specs.Calls.{CallsTellTheirNote};
ghost use Rattle.fw_check_laws.specs.Named.{CausesAreTold, NotesAreNames, RefusalsAreNamed};
ghost use Rattle.fw_tool.specs.Turns.{SourceTurn, SinkTurn, NotesTurn};

use fw_check_causes_laws::broken_rules_have_a_cause;
use fw_tape::Desk;

/// The note of a refused line has the name of its refusal after the line's number. What `check` tells of that line has the same name in its
/// second line; and of a command that breaks a rule it tells what stands against it in the state before the line, and never nothing.
pub fn refusals_are_told<F: Fn(u16, u32, u16) -> [u8; 480], H: Fn(u32, u8) -> u8>(desk: &Desk<F, H>)
    ensures notes { NotesAreNames }
    ensures names { RefusalsAreNamed (record { blocks = F.post desk.now.blocks; vendor = H.post desk.now.vendor }) }
    ensures causes { CausesAreTold (record { blocks = F.post desk.now.blocks; vendor = H.post desk.now.vendor }) }
{
    let _ = desk;
    broken_rules_have_a_cause();
}

/// So a call of `check` that ends with 3 has written a text whose second line begins with the very name that its note has.
pub fn calls_tell_their_note<S, K, N, F: Fn(u16, u32, u16) -> [u8; 480], H: Fn(u32, u8) -> u8>(
    desk: &Desk<F, H>,
)
    ensures { (source : SourceTurn S) (sink : SinkTurn K) (notes : NotesTurn N) (words : List (String Global))
        → CallsTellTheirNote (record { blocks = F.post desk.now.blocks; vendor = H.post desk.now.vendor }) source sink notes words }
{
    refusals_are_told(desk);
}
