//! Laws of the words that run a script, as the contracts of empty functions.

ghost use Rattle.fw_model_run.specs.Desks.{IsFunction};
ghost use Rattle.fw_script_words.specs.OneRun.{HasOneRun};
ghost use Rattle.fw_script_words.specs.Passing.{LookingGoesOn, LookingReadsNothing, PassingGoesOn, PassingLeavesLess};

use fw_tape::Desk;

/// A script has one log, if the desk gives one block for each place and the vendor makes one thing of each byte: whoever runs it to
/// its end over such a desk writes the same log. So it has one reel, and a seed one summary.
pub fn scripts_have_one_log<F: Fn(u16, u32, u16) -> [u8; 480], H: Fn(u32, u8) -> u8>(
    desk: &Desk<F, H>,
)
    ensures { IsFunction (record { blocks = F.post desk.now.blocks; vendor = H.post desk.now.vendor })
        → HasOneRun (record { blocks = F.post desk.now.blocks; vendor = H.post desk.now.vendor }) }
{
    let _ = desk;
}

/// A run that reads its script line by line goes on: neither a look at the next line, nor passing over one that says nothing, changes what it
/// has come to; and it comes to an end, since a line that is passed over leaves less to read.
pub fn runs_go_on_line_by_line<F: Fn(u16, u32, u16) -> [u8; 480], H: Fn(u32, u8) -> u8>(
    desk: &Desk<F, H>,
)
    ensures looking { LookingGoesOn (record { blocks = F.post desk.now.blocks; vendor = H.post desk.now.vendor }) }
    ensures passing { PassingGoesOn (record { blocks = F.post desk.now.blocks; vendor = H.post desk.now.vendor }) }
    ensures nothing { LookingReadsNothing }
    ensures less { PassingLeavesLess }
{
    let _ = desk;
}
