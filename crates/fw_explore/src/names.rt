ghost use Rattle.std.specs.Prelude.{◌≡◌};
ghost use Rattle.fw_explore_meaning.specs.Names.{rule_name};

use fw_bus::RuleFault;

/// The name of a rule.
#[tactic(auto, unfolding(fw_explore_meaning::specs::Names::rule_name))]
pub(crate) fn rule_name(rule: RuleFault) -> &'static [u8]
    ensures { result.now ≡ rule_name rule }
{
    match rule {
        RuleFault::UnknownName => b"UnknownName",
        RuleFault::NameTaken => b"NameTaken",
        RuleFault::TooMany => b"TooMany",
        RuleFault::NoDeck => b"NoDeck",
        RuleFault::NoPort => b"NoPort",
        RuleFault::PortUsed => b"PortUsed",
        RuleFault::Loop => b"Loop",
        RuleFault::NotController => b"NotController",
        RuleFault::NothingStands => b"NothingStands",
        RuleFault::OffBus => b"OffBus",
        RuleFault::NotOwnPlug => b"NotOwnPlug",
        RuleFault::NoSuchConnection => b"NoSuchConnection",
        RuleFault::TableFull => b"TableFull",
        RuleFault::Busy => b"Busy",
        RuleFault::NotCapable => b"NotCapable",
        RuleFault::NotCandidate => b"NotCandidate",
        RuleFault::Guarded => b"Guarded",
        RuleFault::NoRegister => b"NoRegister",
        RuleFault::Limit => b"Limit",
        RuleFault::TooLate => b"TooLate",
    }
}
