ghost use Rattle.std.specs.Prelude.{◌≡◌, List, Some};
ghost use Rattle.fw_log_entry.specs.declared.entry.Timed.{Timed};
ghost use Rattle.fw_order.specs.declared.order.Order.{Order};
ghost use Rattle.fw_model_run.specs.Actions.{Action};
ghost use Rattle.fw_model_run.specs.Carrying.{Carries};
ghost use Rattle.fw_model_run.specs.Deeds.{Transition, Transitions, awaited, deed};
ghost use Rattle.fw_model_run.specs.Found.{Found};
ghost use Rattle.fw_model_run.specs.Good.{IsGood};
ghost use Rattle.fw_model_run.specs.Orders.{actions_of};
ghost use Rattle.fw_model_run.specs.State.{State};

/// In a good state an action finds one thing, so the state and the action alone decide what is written and what state follows.
pub fn good_states_decide_deeds()
    ensures found { (s : State) (a : Action) (f g : Found s a) → IsGood s → s.transaction ≡ awaited s a f → s.transaction ≡ awaited s a g
        → (deed s a f).may → (deed s a g).may → f ≡ g }
    ensures result { (s t u : State) (a : Action) (out other : List Timed) → IsGood s → Transition s a out t → Transition s a other u → (out ≡ other) × (t ≡ u) }
{}

/// An order whose actions the state decides does just these, in every state: all that it does are they, and they are all that it does.
pub fn decided_orders_are_their_actions()
    ensures actions { (s : State) (o : Order) (decided actions : List Action) (out : List Timed) (t : State) → actions_of s o ≡ Some decided
        → Carries s o actions out t → (actions ≡ decided) × Transitions s decided out t }
    ensures carried { (s : State) (o : Order) (decided : List Action) (out : List Timed) (t : State) → actions_of s o ≡ Some decided
        → Transitions s decided out t → Carries s o decided out t }
{}
