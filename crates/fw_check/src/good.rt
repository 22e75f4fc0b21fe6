//! What a script has of which no line is refused.

ghost use Rattle.std.specs.Prelude.{◌≡◌, ◌++◌, OnOk};
ghost use Rattle.fw_check.specs.Goods.{counted, good_text};

use fw_log_names::{put_number, put_word};
use std::alloc::AllocError;

/// What a script has.
#[derive(Clone, Copy)]
pub struct Counts {
    /// The lines that were carried out, `end` too.
    pub commands: u32,
    pub devices: u8,
    /// Those that count against the limit of scripts, as the two below.
    pub resets: u32,
    pub half_steps: u32,
    pub written: u32,
    /// The cycle that has come.
    pub cycle: u64,
}

fn put_count(text: &mut Vec<u8>, n: u64, noun: &str) -> Result<(), AllocError>
    ensures { OnOk result (text.new.items ≡ text.old.items ++ counted n noun.now) }
{
    put_number(text, n)?;
    put_word(text, " ")?;
    put_word(text, noun)?;
    if n == 1 { Ok(()) } else { put_word(text, "s") }
}

/// Appends the line of counts. An error says that memory ran out, and comes for nothing else.
pub fn put_good(text: &mut Vec<u8>, counts: &Counts) -> Result<(), AllocError>
    ensures { OnOk result (text.new.items ≡ text.old.items ++ good_text counts.now) }
{
    put_word(text, "good: ")?;
    put_count(text, u64::from(counts.commands), "command")?;
    put_word(text, ", ")?;
    put_count(text, u64::from(counts.devices), "device")?;
    put_word(text, ", ")?;
    put_count(text, u64::from(counts.resets), "bus reset")?;
    put_word(text, ", ")?;
    put_count(text, u64::from(counts.half_steps), "half step")?;
    put_word(text, ", ")?;
    put_count(text, u64::from(counts.written), "written cycle")?;
    put_word(text, ", up to cycle ")?;
    put_number(text, counts.cycle)?;
    put_word(text, "\n")
}
