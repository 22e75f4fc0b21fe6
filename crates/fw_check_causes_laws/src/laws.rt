//! Laws of what stands against commands, each as the contract of an empty function.

ghost use Rattle.std.specs.Prelude.{Err, IsTrue, is_some};
ghost use Rattle.fw_script_command.specs.declared.command.Command.{Command};
ghost use Rattle.fw_order.specs.declared.rule.RuleFault.{RuleFault};
ghost use Rattle.fw_model_run.specs.Good.{IsGood};
ghost use Rattle.fw_model_run.specs.Rules.{Breaks, Decides};
ghost use Rattle.fw_model_run.specs.State.{State};
ghost use Rattle.fw_check_causes.specs.Causes.{cause};
ghost use Rattle.fw_check_causes_laws.specs.So.{ControllersAreSo, LimitsArePassed, NodesAreSo};
ghost use Rattle.fw_check_causes_laws.specs.Told.{HasCause};

/// In each state of a run, something stands against each command that breaks a rule, whichever of the rules that it breaks is asked for. So
/// of a refused command, whose rule is the first that it breaks, a cause is told, and the rule's name before it.
pub fn broken_rules_have_a_cause()
    ensures broken { (s : State) (c : Command) (rule : RuleFault) → IsGood s → Breaks s c rule → IsTrue (is_some (cause s c rule)) }
    ensures decided { (s : State) (c : Command) (rule : RuleFault) → IsGood s → Decides s c (Err rule) → HasCause s c rule }
{}

/// What is told of a device without a controller or a node is so of that device: a relay, off the bus, or with a controller that died. And
/// the counts that are told of a limit are together more than there may be.
pub fn causes_are_so()
    ensures controllers { (s : State) (c : Command) → IsGood s → ControllersAreSo s c }
    ensures nodes { (s : State) (c : Command) → IsGood s → NodesAreSo s c }
    ensures limits { (s : State) (c : Command) → IsGood s → LimitsArePassed s c }
{}
