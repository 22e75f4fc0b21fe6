//! What words gathered of an entry, taken over into a page.

ghost use Rattle.std.specs.Prelude.{◌≡◌, ◌++◌, [], List, OnOk};
ghost use Rattle.fw_log_entry.specs.declared.entry.Timed.{Timed as TimedEntry};
ghost use Rattle.fw_page.specs.Marks.{marked};

use fw_log_loop::Reading;
use fw_page::put_marked;
use std::alloc::AllocError;

/// Appends what a word gathered, and drops it there.
pub(crate) fn put_gathered<R: Reading>(text: &mut Vec<u8>, word: &mut R) -> Result<(), AllocError>
    ensures text { OnOk result (text.new.items ≡ text.old.items ++ R.gathered word.old) }
    ensures empty { OnOk result (R.gathered word.new ≡ []) }
    ensures took { (entries : List TimedEntry) → R.took word.old entries → OnOk result (R.took word.new entries) }
{
    text.extend_from_slice(word.gathered())?;
    word.clear();
    Ok(())
}

/// The same with a mark before each line.
pub(crate) fn put_lines<R: Reading>(
    text: &mut Vec<u8>,
    mark: u8,
    word: &mut R,
) -> Result<(), AllocError>
    ensures text { OnOk result (text.new.items ≡ text.old.items ++ marked mark (R.gathered word.old)) }
    ensures empty { OnOk result (R.gathered word.new ≡ []) }
    ensures took { (entries : List TimedEntry) → R.took word.old entries → OnOk result (R.took word.new entries) }
{
    put_marked(text, mark, word.gathered())?;
    word.clear();
    Ok(())
}
