//! The names that notes have for refusals and faults.

ghost use Rattle.std.specs.Prelude.{◌≡◌, ◌≤◌, length};
ghost use Rattle.fw_tool.specs.Notes.{stop_note, tree_why_of, rule_of, name_of, why_of, word_why_of};

use crate::Refusal;
use fw_explore_movers::WordWhy;
use fw_log::LogWhy;
use fw_map::MapWhy;
use fw_order::RuleFault;
use fw_outside::Stop;

/// What the note of a refused line says of a rule that a command breaks.
pub(crate) fn rule(fault: RuleFault) -> &'static [u8]
    ensures name { result.now ≡ rule_of fault }
    ensures short { length result.now ≤ 19 }
{
    match fault {
        RuleFault::UnknownName => b": UnknownName\n",
        RuleFault::NameTaken => b": NameTaken\n",
        RuleFault::TooMany => b": TooMany\n",
        RuleFault::NoDeck => b": NoDeck\n",
        RuleFault::NoPort => b": NoPort\n",
        RuleFault::PortUsed => b": PortUsed\n",
        RuleFault::Loop => b": Loop\n",
        RuleFault::NotController => b": NotController\n",
        RuleFault::NothingStands => b": NothingStands\n",
        RuleFault::OffBus => b": OffBus\n",
        RuleFault::NotOwnPlug => b": NotOwnPlug\n",
        RuleFault::NoSuchConnection => b": NoSuchConnection\n",
        RuleFault::TableFull => b": TableFull\n",
        RuleFault::Busy => b": Busy\n",
        RuleFault::NotCapable => b": NotCapable\n",
        RuleFault::NotCandidate => b": NotCandidate\n",
        RuleFault::Guarded => b": Guarded\n",
        RuleFault::NoRegister => b": NoRegister\n",
        RuleFault::Limit => b": Limit\n",
        RuleFault::TooLate => b": TooLate\n",
    }
}

/// What it says of why a line is refused.
pub(crate) fn refusal(why: Refusal) -> &'static [u8]
    ensures name { result.now ≡ name_of why }
    ensures short { length result.now ≤ 19 }
{
    match why {
        Refusal::BadLine => b": BadLine\n",
        Refusal::LineTooLong => b": LineTooLong\n",
        Refusal::NoEnd => b": NoEnd\n",
        Refusal::Rule(fault) => rule(fault),
    }
}

/// What the note of an input that is no log says of its fault.
pub(crate) fn log_why(why: LogWhy) -> &'static [u8]
    ensures { result.now ≡ why_of why }
{
    match why {
        LogWhy::AfterEnd => b": AfterEnd\n",
        LogWhy::BadHeader => b": BadHeader\n",
        LogWhy::BadKind => b": BadKind\n",
        LogWhy::BadLength => b": BadLength\n",
        LogWhy::TimeBack => b": TimeBack\n",
        LogWhy::BadBody(_) => b": BadBody\n",
        LogWhy::Cut => b": Cut\n",
        LogWhy::NoEnd => b": NoEnd\n",
        LogWhy::BadEpoch(_) => b": BadEpoch\n",
    }
}

/// What the note of self-ID packets that no tree has says of the node.
pub(crate) fn tree_why(why: MapWhy) -> &'static [u8]
    ensures name { result.now ≡ tree_why_of why }
    ensures short { length result.now ≤ 10 }
{
    match why {
        MapWhy::Parents => b": Parents\n",
        MapWhy::Missing => b": Missing\n",
        MapWhy::Left => b": Left\n",
        MapWhy::Root => b": Root\n",
    }
}

/// What the note of a word after `explore` says of why it is refused.
pub(crate) fn word_why(why: WordWhy) -> &'static [u8]
    ensures name { result.now ≡ word_why_of why }
    ensures short { length result.now ≤ 14 }
{
    match why {
        WordWhy::BadNumber => b": BadNumber\n",
        WordWhy::LineTooLong => b": LineTooLong\n",
        WordWhy::BadLine => b": BadLine\n",
        WordWhy::NotHere => b": NotHere\n",
        WordWhy::TooMany => b": TooMany\n",
        WordWhy::Twice => b": Twice\n",
        WordWhy::UnknownName => b": UnknownName\n",
    }
}

/// The note of a call that stopped early.
pub(crate) fn stop_note(stop: Stop) -> &'static [u8]
    ensures name { result.now ≡ stop_note stop }
    ensures short { length result.now ≤ 19 }
{
    match stop {
        Stop::ReadFault => b"read fault\n",
        Stop::WriteFault => b"write fault\n",
        Stop::TooLong => b"too long\n",
        Stop::NoMemory => b"no memory\n",
    }
}
