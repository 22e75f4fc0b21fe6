//! One command more, at a place.

ghost use Rattle.std.specs.Prelude.{◌≡◌, [], ℕ, List, IfOk, IsFalse, Some};
ghost use Rattle.fw_log_entry.specs.declared.entry.Timed.{Timed};
ghost use Rattle.fw_script_command.specs.declared.command.Command.{Command as Line};
ghost use Rattle.fw_model_run.specs.Actions.{Action};
ghost use Rattle.fw_model_run.specs.Runs.{Run};
ghost use Rattle.fw_model_run.specs.State.{State};
ghost use Rattle.fw_tape.specs.Desks.{AnyBlock, AnyVendorByte};
ghost use Rattle.fw_bus.specs.Buses.{StandsFor, IsCommand};
ghost use Rattle.fw_explore_meaning.specs.Steps.{CarriesOn};

use crate::keeper::Keeper;
use crate::kept_bus::KeptBus;
use crate::since::{Since, is_nothing};
use fw_bus::{BusFault, RuleFault};
use fw_kept_parts::Full;
use fw_outside::GrowSink;
use fw_script_command::Command;
use fw_tape::Desk;

impl<P: Keeper> KeptBus<P> {
    /// Carries out a command; the sink has what it wrote, and nothing else. If a rule refuses it the rule is answered, and nothing has changed.
    pub(crate) fn carry<F: Fn(u16, u32, u16) -> [u8; 480], H: Fn(u32, u8) -> u8>(
        &mut self,
        sink: &mut GrowSink,
        command: &Command,
        desk: &Desk<F, H>,
    ) -> Result<Option<RuleFault>, Full>
        requires fresh { IsFalse self.old.bus.spent }
        requires command { IsCommand command.now }
        requires blocks { AnyBlock (F.pre desk.now.blocks) }
        requires desk { AnyVendorByte (H.pre desk.now.vendor) }
        ensures carries { (commands : List Line) (actions : List Action) (log : List Timed) (s : State) → Run commands actions log s → StandsFor self.old.bus.machine s
            → IfOk result (CarriesOn (record { blocks = F.post desk.now.blocks; vendor = H.post desk.now.vendor }) commands actions log s command.now self.new.bus sink.new.held) }
        ensures fresh { IfOk result (λ refused. IsFalse self.new.bus.spent) }
        ensures places { self.new.places ≡ self.old.places }
    {
        sink.clear();
        let since = self.since;
        self.since = Since::Any;
        match self.bus.change(command, sink, desk) {
            Ok(changed) => {
                let silent = is_nothing(sink.as_slice());
                self.since = since.after(changed, silent);
                Ok(None)
            }
            Err(BusFault::Refused(rule)) => Ok(Some(rule)),
            Err(BusFault::WriteFault) => Err(Full::NoMemory),
        }
    }
}
