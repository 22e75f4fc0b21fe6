//! The limits of a script. What a command would do past one is refused (`RuleFault::Limit`). Each has its value here and in the law below,
//! and the definitions, the contracts, the proofs and the code name it.

ghost use Rattle.std.specs.Prelude.{◌≡◌};
ghost use Rattle.fw_order.specs.declared.limits.TheConstants.{MOST_HALF_STEPS, MOST_RESETS, MOST_WRITTEN_CYCLES};

/// The most bus resets that commands begin. A lost response counts as one.
pub const MOST_RESETS: u32 = 10_000;
/// The most half steps that `step`, `settle` and `contend` give, all together.
pub const MOST_HALF_STEPS: u64 = 4_000_000;
/// The most cycles that `cycles` writes, all together.
pub const MOST_WRITTEN_CYCLES: u32 = 8_000;

/// A law, and no code: the limits in figures.
pub fn limits_are_those_of_scripts()
    ensures resets { MOST_RESETS ≡ 10_000 }
    ensures half_steps { MOST_HALF_STEPS ≡ 4_000_000 }
    ensures written_cycles { MOST_WRITTEN_CYCLES ≡ 8_000 }
{}
