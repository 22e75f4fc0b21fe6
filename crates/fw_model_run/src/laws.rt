ghost use Rattle.fw_model_run.specs.State.{first_state};
ghost use Rattle.fw_model_run.specs.Reclaiming.{Reclaims, RestoresInSecond, EndsAreSeconds};
ghost use Rattle.fw_model_run.specs.Settling.{HasEnoughRounds};
ghost use Rattle.fw_model_run.specs.OneLog.{RunsHaveOneLog, OrdersHaveOneResult};
ghost use Rattle.fw_model_run.specs.Good.{IsGood};
ghost use Rattle.fw_model_run.specs.Laws.{NodesAnswerByTheAccount};
ghost use Rattle.fw_model_run.specs.Laws.{ActionsLeaveStatesGood};
ghost use Rattle.fw_model_run.specs.Laws.{ActionsAreSound, CommandsAreActions, RunsAreActions};
ghost use Rattle.fw_model_run.specs.Laws.{RunsAreAudited, SoundLogsAreAudited};
ghost use Rattle.fw_model_run.specs.Laws.{RunsOpenLogs, RunsSpellLogs, CutRunsOpenLogs, FrontsOpenLogs};
ghost use Rattle.fw_model_run.specs.Laws.{CommandsHaveOneAnswer};
ghost use Rattle.fw_model_run.specs.Laws.{ConnectionsComeBack};
ghost use Rattle.fw_model_run.specs.Laws.{SettlesHaveEnoughRounds};

use fw_tape::Desk;

/// The node that a controller's request goes to answers it with the account's word, or refuses if it has no such
/// register.
pub fn nodes_answer_by_the_account()
    ensures { NodesAnswerByTheAccount }
{}

/// Before the first device the state is good, and each action leaves a good state good.
pub fn actions_leave_states_good()
    ensures first { IsGood first_state }
    ensures actions { ActionsLeaveStatesGood }
{}

/// At every prefix of the log of a run, and of any actions from the first state on, the account of the entries is defined,
/// sound and in step with all controllers, no channel has two talkers, each answer shows its words, and each entry may be
/// written, in cycles that never fall. What a command does, and so a run, is its actions, one after another.
pub fn runs_are_sound()
    ensures steps { ActionsAreSound }
    ensures commands { CommandsAreActions }
    ensures runs { RunsAreActions }
{}

/// An audit finds no fault in the log of a run: no entry has one, over the account of the entries before it.
pub fn runs_are_audited()
    ensures steps { RunsAreAudited }
    ensures sound { SoundLogsAreAudited }
{}

/// What a run writes is a log of version 2: each entry is in the grammar, cycles never fall, and nothing follows the end. Commands of which
/// none ends the script write a log that lacks its end alone, and with the end after them a whole one. What a run wrote that
/// was cut off inside its next command, whichever it is, is a log that may lack its end, and so is each prefix of a log.
pub fn runs_are_logs()
    ensures opens { RunsOpenLogs }
    ensures whole { RunsSpellLogs }
    ensures cut { CutRunsOpenLogs }
    ensures fronts { FrontsOpenLogs }
{}

/// A script has one log, if the desk gives one block for each place and the vendor makes one thing of each byte: two runs of
/// the same commands then write the same entries, and lead to the same state. A command has one answer, its order or the first
/// rule that it breaks, and in a good state an order has one result, if the desk does so.
pub fn runs_have_one_log<F: Fn(u16, u32, u16) -> [u8; 480], H: Fn(u32, u8) -> u8>(desk: &Desk<F, H>)
    ensures logs { RunsHaveOneLog (record { blocks = F.post desk.now.blocks; vendor = H.post desk.now.vendor }) }
    ensures orders { CommandsHaveOneAnswer }
    ensures results { OrdersHaveOneResult (record { blocks = F.post desk.now.blocks; vendor = H.post desk.now.vendor }) }
{
    let _ = desk;
}

/// The connections that were whole before the bus reset that opened a reclaim second are whole at its end: those whose
/// controller lived on and has finished restoring, and of which no break waited or was current, and none was accepted since.
/// Each end of a second in a log is that of such a second of the run. While a second runs no restoring of a slot whose own second
/// runs ends in any other way than with its connection. Of one run all of this is said in one clause.
pub fn connections_come_back()
    ensures seconds { Reclaims }
    ensures ends { EndsAreSeconds }
    ensures outcomes { RestoresInSecond }
    ensures runs { ConnectionsComeBack }
{}

/// Right after a bus reset of a run that begins a reclaim second, at which no break waits, rounds that are 64 for each
/// connection that is to be restored, and 64 more, leave none to be restored, whatever the number of controllers. Each `settle` of
/// a script takes its rounds from the state that the commands before it lead to, and so they are enough if it comes there.
pub fn rounds_are_enough()
    ensures laws { HasEnoughRounds }
    ensures runs { SettlesHaveEnoughRounds }
{}
