//! What each object begins with.

ghost use Rattle.std.specs.Prelude.{◌≡◌, ◌++◌, OnOk, codes};
ghost use Rattle.fw_log_json_packets.specs.Values.{field, cycle_value};
ghost use Rattle.fw_log_json.specs.Objects.{prefix_fields};

use crate::values::put_code;
use fw_log_names::{kind_name, put_number, put_word};
use std::alloc::AllocError;

/// The first cycle that not each reader of JSON holds exactly as a number.
const INEXACT: u64 = 1 << 53;

// Appends the key of a cycle and the cycle: a number, or a text if not each reader holds the number exactly.
#[tactic(auto, unfolding(fw_log_json_packets::specs::Values::field, fw_log_json_packets::specs::Values::quoted))]
fn put_cycle(text: &mut Vec<u8>, cycle: u64) -> Result<(), AllocError>
    ensures { OnOk result (text.new.items ≡ text.old.items ++ field (codes "{\"cycle\":") (cycle_value cycle)) }
{
    put_word(text, r#"{"cycle":"#)?;
    if cycle < INEXACT {
        return put_number(text, cycle);
    }
    put_word(text, "\"")?;
    put_number(text, cycle)?;
    put_word(text, "\"")
}

// Appends the cycle and the kind of an entry, and the kind's name.
pub(crate) fn put_prefix(text: &mut Vec<u8>, cycle: u64, kind: u8) -> Result<(), AllocError>
    ensures { OnOk result (text.new.items ≡ text.old.items ++ prefix_fields cycle kind) }
{
    put_cycle(text, cycle)?;
    put_code(
        text,
        r#","kind":"#,
        u64::from(kind),
        r#","kind_name":"#,
        kind_name(kind),
    )
}
