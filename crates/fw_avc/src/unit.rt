ghost use Rattle.std.specs.Prelude.{◌≡◌, IfSome, IfNone, position};
ghost use Rattle.std.specs.Option.{option_map};
ghost use Rattle.fw_fcp.specs.Frames.{Fits};
ghost use Rattle.std.specs.Borrow.{sem};
ghost use Rattle.fw_avc.specs.State.{first_state, after_reset, now_of};
ghost use Rattle.fw_avc.specs.Notices.{notice_of, after_notice, is_changed};
ghost use Rattle.fw_avc.specs.Lending.{LendsTape};

use crate::{Kept, Watched};
use arrayvec::ArrayVec;
use fw_fcp::Frame;
use fw_tape::Tape;
use std::marker::Model;

/// The AV/C unit of a deck or camcorder, with its tape subunit (AV/C General 3.0).
#[derive(Drop)]
pub struct Unit {
    pub(crate) outputs: u8,
    pub(crate) inputs: u8,
    pub(crate) power: bool,
    pub(crate) kept: ArrayVec<Kept, 4>,
    pub(crate) tape: Tape,
}

impl Model for Unit {
    ghost use Rattle.fw_avc.specs.State.{UnitState};

    ghost Value = { UnitState };

    ghost view = { λ u. record { outputs = u.outputs; inputs = u.inputs; power = u.power; kept = u.kept.items; tape = u.tape } };
}

impl Unit {
    /// A unit with so many output and input plugs: power on, no tape, and no request is kept.
    pub fn new(outs: u8, ins: u8) -> Unit
        ensures { result ≡ first_state outs ins }
    {
        Unit {
            outputs: outs,
            inputs: ins,
            power: true,
            kept: ArrayVec::new(),
            tape: Tape::new(),
        }
    }

    /// A bus reset: the kept requests are discarded.
    pub fn reset(&mut self)
        ensures { self.new ≡ after_reset self.old }
    {
        self.kept.clear();
    }

    /// The tape subunit, which does not see the unit's power.
    pub fn tape(&mut self) -> &mut Tape
        ensures* lends { sem 𝓛 (LendsTape self.entry result) }
        ensures tape { result.now ≡ self.old.tape }
    {
        &mut self.tape
    }

    /// The tape subunit, to be read.
    pub fn tape_subunit(&self) -> &Tape
        ensures { result.now ≡ self.now.tape }
    {
        &self.tape
    }

    /// The state of the same kind as `value`, as it is now.
    fn now(&self, value: Watched) -> Watched
        ensures { result ≡ now_of self.now value }
    {
        match value {
            Watched::Power(_) => Watched::Power(self.power),
            Watched::Transport(_) => Watched::Transport(self.tape.transport()),
        }
    }

    /// The number of the node whose request is told next, with the frame for it in `out`: the first kept request whose state
    /// has changed, which is then no longer kept. None exactly if no kept value has changed; then `out` stays as it was.
    pub fn notice(&mut self, out: &mut Frame) -> Option<u8>
        ensures notice { option_map (λ node. (node, out.new)) result ≡ notice_of self.old }
        ensures unit { self.new ≡ after_notice self.old }
        ensures fits { IfSome result (λ node. Fits out.new) }
        ensures same { IfNone result (out.new ≡ out.old) }
    {
        let at = self.first_changed()?;
        let kept = self.kept.remove(at);
        self.now(kept.value).put_notice(out);
        Some(kept.node)
    }

    /// The place of the first kept request whose state has changed.
    fn first_changed(&self) -> Option<usize>
        ensures { result ≡ position (is_changed self.now) self.now.kept }
    {
        self.kept.iter().position(|k| self.has_changed(k))
    }

    /// The state has changed since the request was told of it.
    fn has_changed(&self, kept: &Kept) -> bool
        ensures { result ≡ is_changed self.now kept.now }
    {
        self.now(kept.value).codes() != kept.value.codes()
    }
}
