//! What is told of a command that would pass a limit.

ghost use Rattle.std.specs.Prelude.{◌≡◌, ◌++◌, OnOk};
ghost use Rattle.fw_check.specs.Whys.{limit_most, limit_noun, limit_text};

use crate::why::LimitOf;
use fw_log_names::{put_number, put_word};
use std::alloc::AllocError;

fn noun(limit: LimitOf) -> &'static str
    ensures { result.now ≡ limit_noun limit }
{
    match limit {
        LimitOf::WrittenCycles => "written cycles",
        LimitOf::BusResets => "bus resets",
        LimitOf::HalfSteps => "half steps",
        LimitOf::Cycles => "cycles",
    }
}

fn most(limit: LimitOf) -> u64
    ensures { result ≡ limit_most limit }
{
    match limit {
        LimitOf::WrittenCycles => 8_000,
        LimitOf::BusResets => 10_000,
        LimitOf::HalfSteps => 4_000_000,
        LimitOf::Cycles => 1 << 52,
    }
}

/// Appends the limit, with what counts before the line and what it would add. An error says that memory ran out, and comes for nothing else.
pub(crate) fn put_limit(
    text: &mut Vec<u8>,
    limit: LimitOf,
    before: u64,
    here: u64,
) -> Result<(), AllocError>
    ensures { OnOk result (text.new.items ≡ text.old.items ++ limit_text limit before here) }
{
    put_number(text, before)?;
    put_word(text, " ")?;
    put_word(text, noun(limit))?;
    put_word(text, " before and ")?;
    put_number(text, here)?;
    put_word(text, " here are more than ")?;
    put_number(text, most(limit))
}
