//! Lines, each after a mark.

ghost use Rattle.std.specs.Prelude.{◌≡◌, ◌<◌, ◌≤◌, ◌++◌, ◌∷◌, ℕ, length, take, drop, OnOk};
ghost use Rattle.fw_page.specs.Marks.{marked};

use memchr::memchr;
use std::alloc::AllocError;

/// The mark of a line of `explain`.
pub const EXPLAIN: u8 = b'=';

/// The mark of a line of `holders`.
pub const HOLDERS: u8 = b'@';

/// The mark of a line of `watch`. The line of `json` has its mark: its first byte.
pub const WATCH: u8 = b'~';

// How many bytes the first line of a text has, with its line feed. The last may have none.
fn first_line(text: &[u8]) -> usize
    requires { 0 < length text.now }
    ensures some { 0 < result }
    ensures within { result ≤ length text.now }
    ensures line { (m : ℕ) → marked m text.now ≡ m ∷ (take result text.now ++ marked m (drop result text.now)) }
{
    match memchr(b'\n', text) {
        Some(place) => place + 1,
        None => text.len(),
    }
}

/// Appends the lines of a text, each after a mark. An error says that memory ran out.
pub fn put_marked(text: &mut Vec<u8>, mark: u8, lines: &[u8]) -> Result<(), AllocError>
    ensures { OnOk result (text.new.items ≡ text.old.items ++ marked mark lines.now) }
{
    let mut rest = lines;
    while !rest.is_empty() {
        let (line, later) = rest.split_at(first_line(rest));
        text.push(mark)?;
        text.extend_from_slice(line)?;
        rest = later;
    }
    Ok(())
}
