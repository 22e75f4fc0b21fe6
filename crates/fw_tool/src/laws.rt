//! A law of the words together, as the contract of an empty function.

ghost use Rattle.fw_tool.specs.Laws.{WholeLogsAreRead};

use fw_map::self_ids_tell_the_tree;
use fw_model_run::actions_leave_states_good;
use fw_tape::Desk;

/// What `run` writes with status 0 is a whole log, whatever the desk: no word that reads logs refuses it, if it is within their
/// limit, but `map` one without a bus reset. So the self-ID packets of its last bus reset have a tree.
pub fn whole_logs_are_read<F: Fn(u16, u32, u16) -> [u8; 480], H: Fn(u32, u8) -> u8>(
    desk: &Desk<F, H>,
)
    ensures { WholeLogsAreRead (record { blocks = F.post desk.now.blocks; vendor = H.post desk.now.vendor }) }
{
    let _ = desk;
    actions_leave_states_good();
    self_ids_tell_the_tree();
}
