//! Laws of traces, as the contract of an empty function.

ghost use Rattle.fw_trace.specs.Laws.{EndsAsItsRun, LeavesNothingOut};

use fw_tape::Desk;

/// A trace leaves nothing out: its caused lines, a request and its answer counted as two, are as many as the entries of the run's log, but for
/// cycle starts and packets of streams. And it ends as its run ends.
pub fn traces_leave_nothing_out<F: Fn(u16, u32, u16) -> [u8; 480], H: Fn(u32, u8) -> u8>(
    desk: &Desk<F, H>,
)
    ensures told { LeavesNothingOut (record { blocks = F.post desk.now.blocks; vendor = H.post desk.now.vendor }) }
    ensures ends { EndsAsItsRun (record { blocks = F.post desk.now.blocks; vendor = H.post desk.now.vendor }) }
{
    let _ = desk;
}
