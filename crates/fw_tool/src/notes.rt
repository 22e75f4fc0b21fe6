//! The note and the status of an ending.

ghost use Rattle.std.specs.Prelude.{◌≡◌, ◌+◌, ◌<◌, ◌≤◌, ◌++◌, length};
ghost use Rattle.arrayvec.specs.ArrayVec.{array_vec_len};
ghost use Rattle.fw_tool.specs.Notes.{status_of, stop_status, map_note, unexplored_note, note_of, IsTold, IsPassedOn};

use crate::ending::{Ending, Unexplored};
use crate::names::{log_why, refusal, stop_note, tree_why, word_why};
use arrayvec::ArrayVec;
use fw_log_reports::unsound_text;
use fw_log_words::NoMap;
use fw_outside::{Failed, Sink, Stop};
use itoa::Buffer;

/// Room for any note, in bytes: the longest has 121, that of an entry that has a fault, after locks that no audit judges.
pub const NOTE_ROOM: usize = 128;

/// A note.
type Note = ArrayVec<u8, NOTE_ROOM>;

/// Appends a text.
fn put(note: &mut Note, text: &[u8])
    requires { array_vec_len note.old + length text.now ≤ 128 }
    ensures bytes { note.new.items ≡ note.old.items ++ text.now }
    ensures len { array_vec_len note.new ≡ array_vec_len note.old + length text.now }
{
    let _ = note.try_extend_from_slice(text);
}

/// Appends why a log has no map.
fn put_no_map(note: &mut Note, no_map: NoMap)
    requires { array_vec_len note.old + 40 ≤ 128 }
    ensures { note.new.items ≡ note.old.items ++ map_note no_map }
{
    match no_map {
        NoMap::NoReset => put(note, b"no reset\n"),
        NoMap::NoTree(fault) => {
            put(note, b"node ");
            put(note, Buffer::new().format(fault.node).as_bytes());
            put(note, tree_why(fault.why));
        }
    }
}

/// Appends why nothing was explored.
fn put_unexplored(note: &mut Note, why: Unexplored)
    requires { array_vec_len note.old + 40 ≤ 128 }
    ensures { note.new.items ≡ note.old.items ++ unexplored_note why }
{
    match why {
        Unexplored::TooLarge => put(note, b"too large\n"),
        Unexplored::Word(fault) => {
            put(note, b"word ");
            put(note, Buffer::new().format(fault.word).as_bytes());
            put(note, word_why(fault.why));
        }
    }
}

/// The note of an ending.
fn note(ending: Ending) -> Note
    ensures { result.items ≡ note_of ending }
{
    let mut note = Note::new();
    match ending {
        Ending::Done => {}
        Ending::Usage => put(&mut note, b"usage\n"),
        Ending::Refused(refused) => {
            put(&mut note, b"line ");
            put(&mut note, Buffer::new().format(refused.line).as_bytes());
            put(&mut note, refusal(refused.why));
        }
        Ending::NoLog(fault) => {
            put(&mut note, b"byte ");
            put(&mut note, Buffer::new().format(fault.place).as_bytes());
            put(&mut note, log_why(fault.why));
        }
        Ending::Stopped(stop) => put(&mut note, stop_note(stop)),
        Ending::Unsound(flaw) => {
            put(&mut note, unsound_text(&flaw).as_slice());
            put(&mut note, b"\n");
        }
        Ending::NoMap(no_map) => put_no_map(&mut note, no_map),
        Ending::Unexplored(why) => put_unexplored(&mut note, why),
    }
    note
}

fn status(ending: Ending) -> u8
    ensures { result ≡ status_of ending }
{
    match ending {
        Ending::Done => 0,
        Ending::Usage => 2,
        Ending::Refused(_) => 3,
        Ending::NoLog(_) => 4,
        Ending::Stopped(stop) => stop_status(stop),
        Ending::Unsound(_) => 9,
        Ending::NoMap(_) => 10,
        Ending::Unexplored(_) => 11,
    }
}

fn stop_status(stop: Stop) -> u8
    ensures { result ≡ stop_status stop }
{
    match stop {
        Stop::ReadFault => 5,
        Stop::WriteFault => 6,
        Stop::TooLong => 7,
        Stop::NoMemory => 8,
    }
}

/// Writes a note, and answers its status, or 6 if the note was not written.
fn pass_on<N: Sink>(status: u8, note: &[u8], notes: &mut N) -> u8
    ensures { IsPassedOn N.held N.faults notes.old notes.new note.now status result }
{
    match notes.write(note) {
        Ok(()) => status,
        Err(Failed) => 6,
    }
}

/// Writes the note of an ending, and answers its status, or 6 if the note was not written. An ending that is
/// done has no note, and leaves the notes as they were.
pub fn tell<N: Sink>(ending: Ending, notes: &mut N) -> u8
    ensures { IsTold N.held N.faults notes.old notes.new ending result }
{
    if matches!(ending, Ending::Done) {
        return 0;
    }
    pass_on(status(ending), note(ending).as_slice(), notes)
}
