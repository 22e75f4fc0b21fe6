//! The next line of a script, and what it means.

ghost use Rattle.std.specs.Prelude.{◌≡◌, ◌≤◌, IfSome, IfNone};
ghost use Rattle.fw_script.specs.Line.{IsPrefix, IsMeaning, is_skipped, unfed_of};
ghost use Rattle.fw_script_command.specs.Pieces.{IsFirstAt, IsFree};

use fw_script_command::{Command, command_of};
use memchr::memchr;

/// The most bytes of a line, without its line feed.
pub(crate) const LINE_LIMIT: usize = 256;

/// The most bytes of a script.
pub(crate) const SCRIPT_LIMIT: usize = 1_048_576;

/// What stands next.
#[derive(Clone, Copy)]
pub(crate) enum Prefix {
    /// A line of `length` bytes, which takes `size` bytes with its line feed, if it has one.
    Line { length: usize, size: usize },
    /// A line that is too long.
    LongLine,
    /// A line that ends after the script's limit.
    Limit,
    /// The beginning of a line, whose end is not held yet, or no byte of it.
    Cut,
    /// No byte, at the input's end.
    Nothing,
}

// The place of the first line feed. A line is long enough that vectors find it faster; a word is not.
fn line_feed(bytes: &[u8]) -> Option<usize>
    ensures found { IfSome result (IsFirstAt 10 bytes.now) }
    ensures none { IfNone result (IsFree 10 bytes.now) }
{
    memchr(b'\n', bytes)
}

/// What stands at the beginning of some bytes, of which the first `room` are within the script's limit. If the bytes are
/// not yet `whole`, others may follow them.
#[inline(always)]
pub(crate) fn prefix_of(rest: &[u8], room: usize, whole: bool) -> Prefix
    ensures { IsPrefix rest.now room whole result }
{
    let count = rest.len().min(room).min(LINE_LIMIT + 1);
    match line_feed(&rest[..count]) {
        Some(length) => Prefix::Line {
            length,
            size: length + 1,
        },
        None => unfed(rest.len(), count, whole),
    }
}

/// What stands at the beginning of `total` bytes, if the first `count` have no line feed.
fn unfed(total: usize, count: usize, whole: bool) -> Prefix
    requires { count ≤ total }
    ensures { result ≡ unfed_of total count whole }
{
    if count > LINE_LIMIT {
        Prefix::LongLine
    } else if count < total {
        Prefix::Limit
    } else if !whole {
        Prefix::Cut
    } else if count == 0 {
        Prefix::Nothing
    } else {
        Prefix::Line {
            length: count,
            size: count,
        }
    }
}

/// What a line means.
#[derive(Clone, Copy)]
pub(crate) enum Meaning {
    /// Nothing: it is empty or a comment.
    Skipped,
    /// A command.
    Command,
    /// The end.
    End,
    /// It has no form, or stands after the end.
    Refused,
}

fn is_skipped(text: &[u8]) -> bool
    ensures { result ≡ is_skipped text.now }
{
    match text {
        [] => true,
        [b, ..] => *b == b'#',
    }
}

/// What a line means, if commands may stand or only skipped lines. A command is put into `out`.
pub(crate) fn meaning_of(text: &[u8], commands: bool, out: &mut Command) -> Meaning
    ensures { IsMeaning text.now commands result out.new }
{
    if is_skipped(text) {
        return Meaning::Skipped;
    }
    if !commands {
        return Meaning::Refused;
    }
    match command_of(text, out) {
        Some(()) if matches!(out, Command::End) => Meaning::End,
        Some(()) => Meaning::Command,
        None => Meaning::Refused,
    }
}
