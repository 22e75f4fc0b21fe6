//! Controllers in step with the account: what each has, what each stage of a job has taken, and that whatever happens keeps
//! all of them in step. The functions do nothing: their contracts are the laws.
#![tactic(auto)]

mod lingering;

ghost use Rattle.fw_model_controllers.specs.Laws.{MoveChangesItsHolding, MoveLeavesOtherHoldings, MoveKeepsSettings, MoveChangesOneRegister};
ghost use Rattle.fw_model_controllers.specs.Laws.{AnswersKeepJobsInStep};
ghost use Rattle.fw_model_controllers.specs.Laws.{NoAnswerBringsWant, NothingBringsWant, NoRestoringEndsInWant};
ghost use Rattle.fw_model_controllers.specs.Laws.{ControllersStartInStep, HoldingsAreThoseOfTheSlots, RestoringsAreReclaimable, TurnsStayInStep, ControllersStayInStep};
ghost use Rattle.fw_model_controllers.specs.Laws.{ControllersCanGoOn};
ghost use Rattle.fw_model_controllers.specs.Laws.{DirectoriesShowTheBus};
ghost use Rattle.fw_model_controllers.specs.Laws.{RequestsAreAtTheirRegister, RequestPacketsLeadOn, ResponsePacketsLeadOn};
ghost use Rattle.fw_model_controllers.specs.Laws.{TurnsTellWhatIsAwaited, RequestsLeadOn, AnswersLeadOn};
ghost use Rattle.fw_model_controllers.specs.Laws.{SettledAllocationsAreFlows, StandingConnectionsAreWhole};

pub use lingering::plugs_linger_by_their_words;

/// A move changes what its controller has as the move says, and leaves each other controller all that it has. No plug
/// changes its data rate, a connected plug keeps what it is set to, and no word but that of the move's register changes.
pub fn moves_change_one_holding()
    ensures own { MoveChangesItsHolding }
    ensures others { MoveLeavesOtherHoldings }
    ensures plugs { MoveKeepsSettings }
    ensures registers { MoveChangesOneRegister }
{}

/// The answer to the request of a stage, complete or not, keeps the job in step, and a swap that succeeds is a move of the
/// account: the controller may make it, and it swaps the move's own register from word to word.
pub fn jobs_stay_in_step()
    ensures { AnswersKeepJobsInStep }
{}

/// While a reclaim second runs, a job that may allocate restores a flow, finds the flow's units left, and finds no connection
/// on another channel at its output plug. So no answer leads it to end for want of units or as too late, and whatever happens,
/// no restoring whose own second runs comes to that.
pub fn restorings_want_nothing()
    ensures answer { NoAnswerBringsWant }
    ensures together { NothingBringsWant }
    ensures outcome { NoRestoringEndsInWant }
{}

/// Whatever happens keeps all controllers in step with the account: a request that goes out, its answer, the end of a job, a
/// new job, a bus reset, the end of the reclaim second, or a controller's death. A controller in step has exactly what its
/// slots and its stage say, and the output plug of a connection that is to be restored in its own second is reclaimable with
/// the connection's channel and units.
pub fn controllers_stay_in_step()
    ensures first { ControllersStartInStep }
    ensures holding { HoldingsAreThoseOfTheSlots }
    ensures restoring { RestoringsAreReclaimable }
    ensures turn { TurnsStayInStep }
    ensures together { ControllersStayInStep }
{}

/// The controllers' requests go to nodes of the bus, so each may take its turn.
pub fn controllers_can_go_on()
    ensures { ControllersCanGoOn }
{}

/// A directory that says of the nodes what the latest reset entry says, by that entry's numbering of the devices, and that
/// knows when the second is over, is one for controllers in step.
pub fn directories_show_the_bus()
    ensures { DirectoriesShowTheBus }
{}

/// A request to the node of its register is at that register, if it stands, and the account goes on with the request's
/// packet and with that of the response: by the stage's move if its swap succeeded.
pub fn packets_lead_on()
    ensures place { RequestsAreAtTheirRegister }
    ensures request { RequestPacketsLeadOn }
    ensures response { ResponsePacketsLeadOn }
{}

/// So the half steps of controllers in step lead the account on, with no more known of them: what a turn says tells what the
/// controller then waits for, the account goes on with that request, and with the response that answers it.
pub fn half_steps_lead_on()
    ensures says { TurnsTellWhatIsAwaited }
    ensures request { RequestsLeadOn }
    ensures answer { AnswersLeadOn }
{}

/// If no reclaim second runs and no controller has a job or a connection to restore, what is allocated is exactly what the
/// connected plugs take and what controllers left that died. A connection that stands, and is not being broken, is whole.
pub fn settled_allocations_are_flows()
    ensures allocations { SettledAllocationsAreFlows }
    ensures connections { StandingConnectionsAreWhole }
{}
