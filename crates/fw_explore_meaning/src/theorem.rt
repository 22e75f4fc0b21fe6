//! Laws of what is told, for a desk that is a function.

ghost use Rattle.std.specs.Prelude.{◌≡◌, ℕ, List};
ghost use Rattle.fw_script_command.specs.declared.command.Command.{Command as Line};
ghost use Rattle.fw_model_run.specs.Desks.{IsFunction};
ghost use Rattle.fw_explore_movers.specs.declared.mover.Explored.{Explored};
ghost use Rattle.fw_explore_endings.specs.declared.rows.Row.{Row as ARow};
ghost use Rattle.fw_explore_endings.specs.declared.rows.Rows.{Rows as AllRows};
ghost use Rattle.fw_explore_endings.specs.Texts.{text_of};
ghost use Rattle.fw_explore_meaning.specs.Rows.{Comes, Explores};
ghost use Rattle.fw_explore_meaning.specs.Walking.{IsWholeSo};

use fw_tape::Desk;

/// A law: moves come to one ending.
pub fn moves_have_one_ending<F: Fn(u16, u32, u16) -> [u8; 480], H: Fn(u32, u8) -> u8>(
    desk: &Desk<F, H>,
)
    ensures { (script : List Line) (x : Explored) (w one other : List ℕ) → IsFunction (record { blocks = F.post desk.now.blocks; vendor = H.post desk.now.vendor })
        → Comes (record { blocks = F.post desk.now.blocks; vendor = H.post desk.now.vendor }) script x w one
        → Comes (record { blocks = F.post desk.now.blocks; vendor = H.post desk.now.vendor }) script x w other → one ≡ other }
{
    let _ = desk;
}

/// A law: what a walk over all places comes to is sound, complete, counted exactly, and has each ending with its first interleaving.
pub fn whole_walks_tell_all<F: Fn(u16, u32, u16) -> [u8; 480], H: Fn(u32, u8) -> u8>(
    desk: &Desk<F, H>,
)
    ensures { (script : List Line) (x : Explored) (rows : AllRows) → IsFunction (record { blocks = F.post desk.now.blocks; vendor = H.post desk.now.vendor })
        → IsWholeSo (record { blocks = F.post desk.now.blocks; vendor = H.post desk.now.vendor }) script x rows
        → Explores (record { blocks = F.post desk.now.blocks; vendor = H.post desk.now.vendor }) script x rows.list.items rows.ended rows.cut rows.longest }
{
    let _ = desk;
}

/// A law: what is told is a function of the script and the words, however it was found.
pub fn what_is_told_is_one_text<F: Fn(u16, u32, u16) -> [u8; 480], H: Fn(u32, u8) -> u8>(
    desk: &Desk<F, H>,
)
    ensures { (script : List Line) (x : Explored) (names : List (List ℕ)) (rows others : List ARow) (ended cut longest ended' cut' longest' : ℕ)
        → IsFunction (record { blocks = F.post desk.now.blocks; vendor = H.post desk.now.vendor })
        → Explores (record { blocks = F.post desk.now.blocks; vendor = H.post desk.now.vendor }) script x rows ended cut longest
        → Explores (record { blocks = F.post desk.now.blocks; vendor = H.post desk.now.vendor }) script x others ended' cut' longest'
        → text_of x names rows ended cut longest ≡ text_of x names others ended' cut' longest' }
{
    let _ = desk;
}
