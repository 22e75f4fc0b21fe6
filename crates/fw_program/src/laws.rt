//! A law of the program's desk, as the contract of an empty function.

ghost use Rattle.fw_model_run.specs.Desks.{IsFunction};
ghost use Rattle.fw_script_words.specs.OneRun.{HasOneRun};
ghost use Rattle.fw_program.specs.Blocks.{program_desk};

/// The program's desk gives one block for each place of a tape, and makes one thing of each byte. So each script has one log and one reel
/// with `run` and `dub`, and each seed one summary with `gen`.
pub fn program_desk_is_a_function()
    ensures desk { IsFunction program_desk }
    ensures runs { HasOneRun program_desk }
{}
